// Worked cases: a line of standard input is WHAT: STEP; STEP; .. and is answered by WHAT and the answer of its last step. README.md describes a step.
// The store and its buffers stay from line to line, until a step begins anew.
#![tactic(auto)]

mod args; // the words of a step as its arguments
mod buffers; // the memory of a run
mod replies; // what a step answers, as text
mod state; // a store over its buffers, and its calls
mod bench; // what stays from step to step
mod stages; // a store after a few calls
mod alter; // a state and buffers that no call left
mod files; // records, indexes and run bytes
mod lists; // run lists
mod views; // what lies in a buffer

use crate::bench::Bench;
use shell::fields::is_line_end;
use shell::inputs::read_up_to;
use std::io;

// How many bytes of input are read.
const MOST_BYTES: usize = 65536;

fn main(rt: HostRuntime) -> io::Result<()> {
    let alloc = rt.alloc();
    let text = read_up_to(alloc, &mut rt.stdin(), MOST_BYTES)?;
    let mut bench = Bench::new(alloc)?;
    for line in text.split(|byte| is_line_end(*byte)) {
        // A line without a colon is a comment, or empty.
        if let Some(colon) = line.iter().position(|byte| *byte == b':') {
            for step in line[colon + 1..].split_inclusive(|byte| *byte == b';') {
                bench.step(step.strip_suffix(b";").unwrap_or(step))?;
            }
            rt.write_all(&line[..colon])?;
            println!(rt; ": {}", bench.reply)?;
        }
    }
    Ok(())
}
