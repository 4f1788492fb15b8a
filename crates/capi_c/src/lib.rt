// The C functions of include/roadfinch.h. Each passes its arguments on to the function of the same name in `capi`, and
// has its contract: a crate is a library or a static library, not both. A slice passes as a pointer and then a length.
#![tactic(auto)]

pub mod records; // records and their index
pub mod unitigs; // run lists and run bytes
