// What a session runs in: the six buffers, and what is told of its calls.
use crate::session::Session;
use crate::texts::{Hex, Numbers};
use base::{Refusal, code_of};
use std::alloc::{AllocError, Global};
use std::io;
use std::io::Write;

// What each place holds before the session, so that a place that was written shows.
const FILL: u8 = 165;

// How many places the output of the shows has. It is a fixed number, since which calls are shows, and how many places each takes, is for `replay` to say.
const SHOWN: usize = 65536;

#[derive(Debug, Drop)]
pub(crate) struct Memory {
    records: Vec<u8>,
    index: Vec<u64>,
    opened: Vec<u64>,
    held: Vec<u64>,
    runs: Vec<u8>,
    table: Vec<u64>,
    // The refusal of each call, or 0, and its answer.
    refusals: Vec<u32>,
    answers: Vec<u64>,
    shown: Vec<u32>,
}

// So many places, each filled.
fn filled<T: From<u8> + Copy>(alloc: Global, count: usize) -> Result<Vec<T>, AllocError> {
    let mut places = Vec::new(alloc);
    places.resize(count, T::from(FILL))?;
    Ok(places)
}

// Up to the last place that is not as it was filled.
fn written<T: From<u8> + PartialEq + Drop>(places: &[T]) -> &[T] {
    let fill = T::from(FILL);
    match places.iter().rposition(|place| *place != fill) {
        Some(last) => &places[..=last],
        None => &[],
    }
}

impl Memory {
    pub(crate) fn of(alloc: Global, session: &Session) -> Result<Self, AllocError> {
        let lengths = session.lengths;
        let calls = session.calls.len() / 6;
        Ok(Memory {
            records: filled(alloc, lengths.records)?,
            index: filled(alloc, lengths.index)?,
            opened: filled(alloc, lengths.opened)?,
            held: filled(alloc, lengths.held)?,
            runs: filled(alloc, lengths.runs)?,
            table: filled(alloc, lengths.table)?,
            refusals: filled(alloc, calls)?,
            answers: filled(alloc, calls)?,
            shown: filled(alloc, SHOWN)?,
        })
    }

    // The session's calls, and what its start answers.
    pub(crate) fn run(&mut self, session: &Session) -> Result<(), Refusal> {
        replay::session(
            session.colors,
            session.worker,
            &session.calls,
            &session.ids,
            &session.pieces,
            &mut self.records,
            &mut self.index,
            &mut self.opened,
            &mut self.held,
            &mut self.runs,
            &mut self.table,
            &mut self.refusals,
            &mut self.answers,
            &mut self.shown,
        )
        .answer
    }

    // What was answered, and what the output and the buffers hold.
    pub(crate) fn print(&self, start: Result<(), Refusal>, out: &mut impl Write) -> io::Result<()> {
        writeln!(out, "start {}", code_of(&start))?;
        for (refusal, answer) in self.refusals.iter().zip(&self.answers) {
            writeln!(out, "{refusal} {answer}")?;
        }
        writeln!(out, "shown{}", Numbers(written(&self.shown)))?;
        writeln!(out, "records {}", Hex(written(&self.records)))?;
        writeln!(out, "index{}", Numbers(written(&self.index)))?;
        writeln!(out, "open{}", Numbers(written(&self.opened)))?;
        writeln!(out, "held{}", Numbers(written(&self.held)))?;
        writeln!(out, "runs {}", Hex(written(&self.runs)))?;
        writeln!(out, "table{}", Numbers(written(&self.table)))
    }
}
