// Runs lists of calls through `replay::session`. A session is four lines of standard input: the colour count, the worker and the lengths of the
// six buffers; the calls, six numbers each (crates/replay says which); the ids; the runs, each OFFSET:COORDINATE. Every buffer, and the
// output of the shows, begins as 165s. What is answered is 'start CODE', a line for each call with its refusal (or 0) and its answer, and what the
// output and the six buffers hold, each up to its last place that is not 165. What doesn't fit is left out: the answers then differ.
#![tactic(auto)]

mod session; // a session as its four lines say it
mod memory; // what a session runs in
mod texts; // lists as text

use crate::memory::Memory;
use crate::session::{Head, Session};
use shell::fields::is_line_end;
use shell::inputs::read_up_to;
use std::io;
use std::io::{BufWriter, Write};

// How many bytes of input are read.
const MOST_BYTES: usize = 1048576;

fn main(rt: HostRuntime) -> io::Result<()> {
    let alloc = rt.alloc();
    let text = read_up_to(alloc, &mut rt.stdin(), MOST_BYTES)?;
    let mut lines: Vec<&[u8]> = text.split(|byte| is_line_end(*byte)).collect(alloc)?;
    // Behind the last line end there is a line only where there is a byte.
    if lines.last().is_some_and(|line| line.is_empty()) {
        lines.pop();
    }
    let mut head = Head::default();
    let mut out = BufWriter::new(alloc, rt.stdout())?;
    for lines in lines.chunks(4) {
        head.read(lines);
        let session = Session::of(alloc, &head, lines)?;
        let mut memory = Memory::of(alloc, &session)?;
        let answer = memory.run(&session);
        memory.print(answer, &mut out)?;
    }
    out.flush()
}
