// A state and buffers that no call left. Numbers become lengths by `as`, since there is no `From` from u64 to usize; a place of a buffer of bytes takes
// the low byte of a number.
// The six buffers are told apart by name twice here and twice in views.rt: some hold bytes and some words, so a function from a name to its buffer
// would answer with an enum, which each of the four would take apart again.
use crate::args::{StepError, size, wide};
use crate::bench::Bench;
use crate::replies::Reply;
use shell::lists::narrow;
use shell::reasons::Fault;
use shell::words::Words;
use store::state::{Current, Last, Store, Way};

// As a case writes it: a vertex count, or 16,777,217 for none.
fn current_of(vertices: u32) -> Current {
    match vertices {
        16777217 => Current::Nothing,
        _ => Current::Open(vertices),
    }
}

// As a case writes it: 0, no call; 1, an add; 2, a close as a line.
fn last_of(call: u32) -> Last {
    match call {
        0 => Last::Fresh,
        1 => Last::Add,
        _ => Last::Close { way: Way::Line },
    }
}

// One field of a state. An unknown one alters nothing.
fn set_field(store: &mut Store, field: &[u8], value: u64) {
    match field {
        b"colors" => store.colors = narrow(value),
        b"worker" => store.cell.worker = narrow(value),
        b"records.length" => store.cell.records.length = value as usize,
        b"records.used" => store.cell.records.used = value as usize,
        b"index" => store.cell.index = value as usize,
        b"sets" => store.cell.sets = narrow(value),
        b"opened.length" => store.cell.opened.length = value as usize,
        b"opened.used" => store.cell.opened.used = value as usize,
        b"held.length" => store.cell.held.length = value as usize,
        b"held.used" => store.cell.held.used = value as usize,
        b"current" => store.cell.current = current_of(narrow(value)),
        b"last" => store.cell.last = last_of(narrow(value)),
        b"number" => store.cell.number = narrow(value),
        b"answer" => store.cell.answer = value,
        b"runs.length" => store.shared.runs.length = value as usize,
        b"runs.used" => store.shared.runs.used = value as usize,
        b"table" => store.shared.table = value as usize,
        b"unitigs" => store.shared.unitigs = narrow(value),
        _ => {}
    }
}

impl Bench {
    // set FIELD VALUE
    pub(crate) fn set(&mut self, mut words: Words<'_>) -> Result<Reply, StepError> {
        let field = words.next().ok_or(Fault::Missing)?;
        let value = wide(&mut words)?;
        set_field(&mut self.state.store, field, value);
        Ok(Reply::Done)
    }

    // lend BUFFER LENGTH
    pub(crate) fn lend(&mut self, mut words: Words<'_>) -> Result<Reply, StepError> {
        let buffer = words.next().ok_or(Fault::Missing)?;
        let length = size(&mut words)?;
        let b = &mut self.state.buffers;
        match buffer {
            b"records" => b.records.lent = length,
            b"index" => b.index.lent = length,
            b"opened" => b.opened.lent = length,
            b"held" => b.held.lent = length,
            b"runs" => b.runs.lent = length,
            b"table" => b.table.lent = length,
            _ => {}
        }
        Ok(Reply::Done)
    }

    // put BUFFER PLACE VALUE
    pub(crate) fn put(&mut self, mut words: Words<'_>) -> Result<Reply, StepError> {
        let buffer = words.next().ok_or(Fault::Missing)?;
        let place = size(&mut words).unwrap_or(0);
        let value = wide(&mut words)?;
        let byte = (value & 0xff) as u8;
        let b = &mut self.state.buffers;
        match buffer {
            b"records" => b.records.put(place, byte),
            b"index" => b.index.put(place, value),
            b"opened" => b.opened.put(place, value),
            b"held" => b.held.put(place, value),
            b"runs" => b.runs.put(place, byte),
            b"table" => b.table.put(place, value),
            _ => {}
        }
        Ok(Reply::Done)
    }
}
