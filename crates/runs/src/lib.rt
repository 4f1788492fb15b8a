// Runs of colours along a unitig, as lists of packed words and as bytes.
#![tactic(auto)]

pub mod words; // a run as one number of 64 bits
pub(crate) mod listed; // a list, whether it stands as words or as bytes
pub mod orders; // steady and sharp lists
pub(crate) mod oriented; // a list from either end
pub mod reverse; // a list from the other end
pub(crate) mod swap; // the same in its own place
pub mod merge; // equal neighbours merged
pub mod append; // a piece behind an output
pub(crate) mod turned; // the runs of a turned cycle
pub mod rotate; // a cycle begun at another vertex
pub(crate) mod blocks; // runs that stand as bytes
pub mod bytes; // run bytes
