// A store over its buffers, and its calls: what each answers, and whether it left the state and the buffers as they were. A count of ids becomes a
// usize by `as`, since there is no `From` for it from u64.
use crate::buffers::{Buffer, Buffers, EIGHT, WORDS};
use crate::replies::{Reply, Said};
use base::Refusal;
use shell::lengths::Lengths;
use std::alloc::{AllocError, Global};
use store::state::{Store, Told, Way};

#[derive(Clone, Debug, PartialEq, Eq, Drop)]
pub(crate) struct State {
    pub store: Store,
    pub buffers: Buffers,
}

impl State {
    // No store, and nothing lent.
    pub(crate) fn none(alloc: Global) -> Result<Self, AllocError> {
        Ok(State {
            store: Store::default(),
            buffers: Buffers::of(alloc, Lengths::default())?,
        })
    }

    // A fresh store. It may alter index entry 0 alone, and nothing where it is refused.
    pub(crate) fn start(
        &mut self,
        alloc: Global,
        colors: u32,
        worker: u32,
        lent: Lengths,
    ) -> Result<Reply, AllocError> {
        let mut buffers = Buffers::of(alloc, lent)?;
        let told = Store::start(
            colors,
            worker,
            buffers.records.front(),
            buffers.index.front_mut(),
            buffers.opened.front(),
            buffers.held.front(),
            buffers.runs.front(),
            buffers.table.front(),
        );
        let written = told.answer.map_or(0, |_| 1);
        let kept = buffers.index.is_fresh_from(written);
        *self = State {
            store: told.state,
            buffers,
        };
        Ok(Reply::Called {
            answer: told.answer.map(|_| Said::Made),
            kept,
        })
    }

    // What a call of the store answers, and whether it left all as it was.
    fn told<F>(&mut self, call: F) -> Result<(Result<u64, Refusal>, bool), AllocError>
    where
        F: FnOnce(Store, &mut Buffers) -> Told<Store, u64>,
        requires { F.IsAlwaysCallable call }
    {
        let before = self.clone()?;
        let told = call(self.store, &mut self.buffers);
        self.store = told.state;
        Ok((told.answer, *self == before))
    }

    // The same of a call that answers with a value.
    fn call<F>(&mut self, call: F) -> Result<Reply, AllocError>
    where
        F: FnOnce(Store, &mut Buffers) -> Told<Store, u64>,
        requires { F.IsAlwaysCallable call }
    {
        let (answer, kept) = self.told(call)?;
        Ok(Reply::Called {
            answer: answer.map(Said::Value),
            kept,
        })
    }

    pub(crate) fn add(&mut self, number: u32, ids: &[u32]) -> Result<Reply, AllocError> {
        self.call(|store, b| {
            store.add(
                number,
                ids,
                b.records.front_mut(),
                b.index.front_mut(),
                b.opened.front(),
                b.held.front(),
                b.runs.front(),
                b.table.front(),
            )
        })
    }

    pub(crate) fn join(
        &mut self,
        number: u32,
        n: u32,
        reversed: bool,
        piece: &[u64],
    ) -> Result<Reply, AllocError> {
        self.call(|store, b| {
            store.join(
                number,
                n,
                reversed,
                piece,
                b.records.front(),
                b.index.front(),
                b.opened.front_mut(),
                b.held.front_mut(),
                b.runs.front(),
                b.table.front(),
            )
        })
    }

    pub(crate) fn close(&mut self, number: u32, way: Way) -> Result<Reply, AllocError> {
        self.call(|store, b| {
            store.close(
                number,
                way,
                b.records.front(),
                b.index.front(),
                b.opened.front(),
                b.held.front(),
                b.runs.front_mut(),
                b.table.front_mut(),
            )
        })
    }

    // Into an output of so many places.
    pub(crate) fn show(
        &mut self,
        alloc: Global,
        unitig: u32,
        vertex: u32,
        room: usize,
    ) -> Result<Reply, AllocError> {
        let mut ids = Buffer::<u32>::filled(alloc, WORDS, EIGHT, room)?;
        let (answer, same) = self.told(|store, b| {
            store.show(
                unitig,
                vertex,
                ids.front_mut(),
                b.records.front(),
                b.index.front(),
                b.opened.front(),
                b.held.front(),
                b.runs.front(),
                b.table.front(),
            )
        })?;
        let count = answer.unwrap_or(0) as usize;
        let kept = same && ids.is_fresh_from(count);
        let ids = ids.into_front(count);
        Ok(Reply::Called {
            answer: answer.map(|_| Said::Ids { ids, of: None }),
            kept,
        })
    }
}
