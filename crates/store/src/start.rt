// A fresh store.
ghost use Rattle.std.specs.Prelude.{◌≡◌};
ghost use Rattle.base.specs.Answers.{of_made};
ghost use Rattle.store.specs.State.{bufs};
ghost use Rattle.store.specs.Start.{bad_limits, bad_cell_lengths, bad_shared_lengths, bad_lengths, fresh, start_step, unstarted};
ghost use Rattle.store.specs.Inside.Lent.{cell_lent, shared_lent, all_lent};

use crate::altered::too_long;
use crate::lengths::{CellLengths, Lengths, SharedLengths};
use crate::state::{Cell, Extent, Shared, Store, Told};
use base::Refusal;

// Whether N is outside 1 to 1,048,576 or the worker above 255.
#[tactic(auto, unfolding(crate::specs::Start::bad_limits))]
fn bad_limits(colors: u32, worker: u32) -> bool
    ensures { result ≡ bad_limits colors worker }
{
    codec::records::bad_colors(colors) || 255 < worker
}

impl CellLengths {
    // No index entry, or a buffer of a cell that is too long.
    #[tactic(auto, unfolding(crate::specs::Start::bad_cell_lengths, base::specs::Tests::any_of))]
    fn is_bad(self) -> bool
        ensures { result ≡ bad_cell_lengths (cell_lent self) }
    {
        self.index == 0
            || too_long(self.records)
            || too_long(self.index)
            || too_long(self.opened)
            || too_long(self.held)
    }
}

impl SharedLengths {
    #[tactic(auto, unfolding(crate::specs::Start::bad_shared_lengths, base::specs::Tests::any_of))]
    fn is_bad(self) -> bool
        ensures { result ≡ bad_shared_lengths (shared_lent self) }
    {
        too_long(self.runs) || too_long(self.table)
    }
}

impl Lengths {
    #[tactic(auto, unfolding(crate::specs::Start::bad_lengths))]
    fn is_bad(self) -> bool
        ensures { result ≡ bad_lengths (all_lent self) }
    {
        self.cell.is_bad() || self.shared.is_bad()
    }
}

// The state of a store that nothing was sent to.
#[tactic(auto, unfolding(crate::specs::Start::fresh, crate::specs::Start::fresh_cell, crate::specs::Start::fresh_shared))]
fn fresh(colors: u32, worker: u32, lengths: Lengths) -> Store
    ensures { result ≡ fresh colors worker (all_lent lengths) }
{
    Store {
        colors,
        cell: Cell {
            worker,
            records: Extent::unused(lengths.cell.records),
            index: lengths.cell.index,
            opened: Extent::unused(lengths.cell.opened),
            held: Extent::unused(lengths.cell.held),
            ..Cell::default()
        },
        shared: Shared {
            runs: Extent::unused(lengths.shared.runs),
            table: lengths.shared.table,
            unitigs: 0,
        },
    }
}

// A colour count of 0: no call is taken with such a state.
#[tactic(auto, unfolding(crate::specs::Start::fresh, crate::specs::Start::fresh_cell, crate::specs::Start::fresh_shared))]
fn unstarted(r: Refusal) -> Told<Store, ()>
    ensures { result ≡ unstarted r }
{
    Told {
        state: Store::default(),
        answer: Err(r),
    }
}

impl Store {
    // Refusal 1, N or W outside its limits; 3, no index entry or a buffer too long; otherwise index entry 0 becomes 0.
    pub fn start(
        colors: u32,
        worker: u32,
        records: &[u8],
        index: &mut [u64],
        opened: &[u64],
        held: &[u64],
        runs: &[u8],
        table: &[u64],
    ) -> Told<Store, ()>
        ensures { (of_made result.answer, result.state, bufs records.now index.new opened.now held.now runs.now table.now)
            ≡ start_step colors worker (bufs records.now index.old opened.now held.now runs.now table.now) }
    {
        let lengths = Lengths::of(records, index, opened, held, runs, table);
        if bad_limits(colors, worker) {
            return unstarted(Refusal::Colors);
        }
        if lengths.is_bad() {
            return unstarted(Refusal::Space);
        }
        index[0] = 0;
        Told {
            state: fresh(colors, worker, lengths),
            answer: Ok(()),
        }
    }
}
