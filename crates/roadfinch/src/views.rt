// What the store holds, in text. `as`, since there is no `From` between usize and u32 or u64, and `try_from` would add a case that can't come.
// The store is passed beside the memory, whose `store` is an Option: to read it there would add that case too.
use crate::memory::Memory;
use crate::output::Output;
use shell::fields::{front, part};
use std::io;
use store::state::{Current, Store};

// The used bytes of the record file.
pub(crate) fn records(store: Store, memory: &Memory, out: &mut Output) -> io::Result<()> {
    out.text(b"ok ")?;
    out.hex(front(&memory.records, store.cell.records.used))?;
    out.text(b"\n")
}

// One entry more than there are sets.
pub(crate) fn index(store: Store, memory: &Memory, out: &mut Output) -> io::Result<()> {
    out.text(b"ok")?;
    for entry in front(&memory.index, store.cell.sets as usize + 1) {
        out.named(b" ", *entry)?;
    }
    out.text(b"\n")
}

// A unitig: its place, its vertex count and its runs.
fn unitig(
    place: usize,
    n: u64,
    bytes: &[u8],
    piece: &mut [u64],
    out: &mut Output,
) -> io::Result<()> {
    out.number(place as u64)?;
    out.named(b" ", n)?;
    match runs::bytes::read_unitig_color_runs(bytes, piece) {
        Ok(given) => {
            out.runs(front(piece, given.items))?;
            out.text(b"\n")
        }
        Err(_) => out.text(b" unreadable\n"),
    }
}

// How many unitigs are closed, then a line each.
pub(crate) fn unitigs(
    store: Store,
    memory: &Memory,
    piece: &mut [u64],
    out: &mut Output,
) -> io::Result<()> {
    let shared = store.shared;
    out.named(b"ok ", u64::from(shared.unitigs))?;
    out.text(b"\n")?;
    let files = front(&memory.runs, shared.runs.used);
    let entries = memory.table.as_chunks::<2>().0;
    for (place, [start, n]) in front(entries, shared.unitigs as usize).iter().enumerate() {
        let bytes = part(files, *start as usize, files.len());
        unitig(place, *n, bytes, piece, out)?;
    }
    Ok(())
}

// One line: what the store was started with, and how much it holds.
pub(crate) fn state(store: Store, out: &mut Output) -> io::Result<()> {
    let cell = store.cell;
    let shared = store.shared;
    out.named(b"ok N ", u64::from(store.colors))?;
    out.named(b" W ", u64::from(cell.worker))?;
    out.named(b" last ", u64::from(cell.number))?;
    out.named(b" sets ", u64::from(cell.sets))?;
    out.named(b" records ", cell.records.used as u64)?;
    match cell.current {
        Current::Nothing => out.text(b" open none")?,
        Current::Open(n) => out.named(b" open ", u64::from(n))?,
    }
    out.named(b" unitigs ", u64::from(shared.unitigs))?;
    out.named(b" runs ", shared.runs.used as u64)?;
    out.text(b"\n")
}
