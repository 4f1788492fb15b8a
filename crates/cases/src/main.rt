// Replays recorded answers: each line of the file `answers` is a call and what it must answer. data/README.md describes a line.
// Then compares record files: each line of the file `files` is one.
// Nothing is proved of the answers here, only that the program is safe and ends; what it prints is compared with `stdout`.
#![tactic(auto)]

mod numbers; // the numbers of a line
mod recorded; // a recorded call, and what it must answer
mod operations; // the call of each operation
mod files; // which record file is the beginning of which

ghost use Rattle.std.specs.Prelude.{◌≤◌, IfOk, vec_len};

use shell::inputs::read_up_to;
use std::alloc::Global;
use std::rt::Files;
use std::{fs, io};

// How many bytes of a file are read.
const MOST_BYTES: usize = 262144;

// The bytes of a file, so many at most.
fn read_file(rt: &impl Files, alloc: Global, name: &str) -> io::Result<Vec<u8>>
    ensures within { IfOk result (λ text. vec_len text ≤ 262144) }
{
    read_up_to(alloc, &mut fs::open(rt, name)?, MOST_BYTES)
}

fn main(rt: HostRuntime) -> io::Result<()> {
    let alloc = rt.alloc();
    let answers = read_file(&rt, alloc, "answers")?;
    recorded::replay_all(&rt, alloc, &answers)?;
    let files = read_file(&rt, alloc, "files")?;
    files::compare_all(&rt, alloc, &files)
}
