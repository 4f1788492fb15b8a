// The store, the memory that it works in, and its calls over as much of it as start said.
use crate::replies::Trouble;
use shell::fields::{front, split_front};
use shell::lengths::Lengths;
use shell::reasons::Fault;
use store::state::{Store, Told, Way};

// The buffers have fixed lengths and lie on the stack, since the program allocates nothing: `help` tells the limits.
#[derive(Drop)]
pub struct Memory {
    // no store before an accepted start
    pub store: Option<Store>,
    pub records: [u8; 1048576],
    pub index: [u64; 65536],
    pub opened: [u64; 32768],
    pub held: [u64; 32768],
    pub runs: [u8; 1048576],
    // two numbers for each of 16,384 unitigs
    pub table: [u64; 32768],
}

impl Memory {
    pub(crate) fn started(&self) -> Result<Store, Fault> {
        self.store.ok_or(Fault::Unstarted)
    }

    // Whether a length is above its buffer's.
    fn lacks(&self, lengths: Lengths) -> bool {
        self.records.len() < lengths.records
            || self.index.len() < lengths.index
            || self.opened.len() < lengths.opened
            || self.held.len() < lengths.held
            || self.runs.len() < lengths.runs
            || self.table.len() < lengths.table
    }

    // A refused start leaves the store that there is.
    pub(crate) fn start(
        &mut self,
        colors: u32,
        worker: u32,
        lengths: Lengths,
    ) -> Result<(), Trouble> {
        if self.lacks(lengths) {
            return Err(Trouble::Wrong(Fault::Length));
        }
        let begun = Store::start(
            colors,
            worker,
            front(&self.records, lengths.records),
            split_front(&mut self.index, lengths.index).0,
            front(&self.opened, lengths.opened),
            front(&self.held, lengths.held),
            front(&self.runs, lengths.runs),
            front(&self.table, lengths.table),
        );
        begun.answer?;
        self.store = Some(begun.state);
        Ok(())
    }

    // A call of the store over as much of each buffer as start said. The state that it hands back is kept, refused or not.
    fn call<F>(&mut self, call: F) -> Result<u64, Trouble>
    where
        F: FnOnce(
            Store,
            &mut [u8],
            &mut [u64],
            &mut [u64],
            &mut [u64],
            &mut [u8],
            &mut [u64],
        ) -> Told<Store, u64>,
        requires { F.IsAlwaysCallable call }
    {
        let store = self.started()?;
        let cell = store.cell;
        let shared = store.shared;
        let told = call(
            store,
            split_front(&mut self.records, cell.records.length).0,
            split_front(&mut self.index, cell.index).0,
            split_front(&mut self.opened, cell.opened.length).0,
            split_front(&mut self.held, cell.held.length).0,
            split_front(&mut self.runs, shared.runs.length).0,
            split_front(&mut self.table, shared.table).0,
        );
        self.store = Some(told.state);
        Ok(told.answer?)
    }

    pub(crate) fn add(&mut self, number: u32, ids: &[u32]) -> Result<u64, Trouble> {
        self.call(|store, records, index, opened, held, runs, table| {
            store.add(number, ids, records, index, opened, held, runs, table)
        })
    }

    pub(crate) fn join(
        &mut self,
        number: u32,
        n: u32,
        reversed: bool,
        piece: &[u64],
    ) -> Result<u64, Trouble> {
        self.call(|store, records, index, opened, held, runs, table| {
            store.join(
                number, n, reversed, piece, records, index, opened, held, runs, table,
            )
        })
    }

    pub(crate) fn close(&mut self, number: u32, way: Way) -> Result<u64, Trouble> {
        self.call(|store, records, index, opened, held, runs, table| {
            store.close(number, way, records, index, opened, held, runs, table)
        })
    }

    // Answers how many ids were given.
    pub(crate) fn show(
        &mut self,
        unitig: u32,
        vertex: u32,
        ids: &mut [u32],
    ) -> Result<u64, Trouble> {
        self.call(|store, records, index, opened, held, runs, table| {
            store.show(
                unitig, vertex, ids, records, index, opened, held, runs, table,
            )
        })
    }
}
