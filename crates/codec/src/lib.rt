// Sets of strain numbers as bits, bytes and record files.
#![tactic(auto)]

mod absent; // the ids absent from a dense set, listed
mod bits; // bits of a byte slice, and a writer of bits
mod bitmap; // a set as one bit for each id
mod body; // what a payload holds
mod colors; // a colour count and ids below it
mod copies; // the front of a list copied
mod codes; // Elias gamma and delta codes
mod gap_reader; // ids coded as distances, read
mod gaps; // ids as the distances between them
pub mod index; // where the records of a file begin
pub mod measured; // a set with how long its payload is
pub mod prefix; // LEB128 length prefixes
mod reader; // a payload and a bit place, at the reader's outer edge
pub mod records; // records: a length prefix and a payload
mod sets; // payloads: the three regimes of a set
mod source; // the bytes of a payload, and the reader of its codes
