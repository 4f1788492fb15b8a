// Commands on standard input, a line each; answers on standard output. What is filed and read back is the libraries' work: this program
// takes lines apart, calls, and prints. Nothing that a line holds ends it.
#![tactic(auto)]

mod memory; // the store and its memory
mod input; // input to lines
mod output; // answers into a buffer
mod replies; // what a line is answered
mod parse; // the words of a command as its arguments
mod orders; // what a line asks for
mod help; // what help says
mod views; // what the store holds
mod say; // a reply as text

use crate::input::{Input, Line};
use crate::memory::Memory;
use crate::orders::Desk;
use crate::output::Output;
use crate::replies::{Reply, Trouble};
use std::io;

fn answer(line: &Line, desk: &mut Desk) -> Result<Option<Reply>, Trouble> {
    desk.obey(line.text()?)
}

// A line at a time. Nothing says that the input ends: the turns are counted, as in `next_line`.
fn run(input: &mut Input, line: &mut Line, desk: &mut Desk, out: &mut Output) -> io::Result<()> {
    for _ in 0..u64::MAX {
        if !input.next_line(line, out)? {
            break;
        }
        let told = answer(line, desk);
        say::say(told, line.number, desk, out)?;
    }
    Ok(())
}

// All memory of a run lies here, on the stack: 5.2 MiB. Input and answers take little of it, so that a long record has room within the limit that
// README names.
fn main(rt: HostRuntime) -> io::Result<()> {
    let mut input = Input {
        from: rt.stdin(),
        bytes: [0; 16384],
        got: 0,
        taken: 0,
        last: false,
    };
    let mut line = Line {
        number: 0,
        bytes: [0; 786432],
        used: 0,
    };
    let mut desk = Desk {
        memory: Memory {
            store: None,
            records: [0; 1048576],
            index: [0; 65536],
            opened: [0; 32768],
            held: [0; 32768],
            runs: [0; 1048576],
            table: [0; 32768],
        },
        ids: [0; 65536],
        piece: [0; 65536],
        space: [0; 393216],
    };
    let mut out = Output {
        bytes: [0; 16384],
        used: 0,
        to: rt.stdout(),
    };
    run(&mut input, &mut line, &mut desk, &mut out)
}
