// Commands as text: words, numbers and bytes read from a line, and answers written into a buffer. Nothing here opens a file.
#![tactic(auto)]

pub mod inputs; // a whole input into a buffer
pub mod fields; // where the words of a line stand
pub mod numbers; // decimal numbers
pub mod pairs; // OFFSET:COORDINATE
pub mod hexes; // bytes as hexadecimal digits
pub mod lists; // numbers and runs to the end of a line
pub mod words; // a line, and how far its words were taken
pub mod lengths; // how long a store's buffers are
mod digits; // a number as decimal digits
pub mod texts; // text behind text in a buffer
pub mod commands; // the first word of a line
pub mod reasons; // refusals and faults in words
