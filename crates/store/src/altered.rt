// What every call after start tests first (15), and the limits of start.
// `as` stands where no `From` leads, from u32 to usize.
ghost use Rattle.std.specs.Prelude.{◌≡◌};
ghost use Rattle.store.specs.Start.{too_long};
ghost use Rattle.store.specs.Altered.{altered_buffer, bad_vertices, bad_current, altered_cell, altered_shared, altered};
ghost use Rattle.store.specs.Inside.Lent.{cell_lent, shared_lent, all_lent};

use crate::lengths::{CellLengths, Lengths, SharedLengths};
use crate::state::{Cell, Current, Extent, Shared, Store};

// Whether a buffer is longer than 4,294,967,295.
#[tactic(auto, unfolding(crate::specs::Start::too_long))]
pub(crate) fn too_long(length: usize) -> bool
    ensures { result ≡ too_long length }
{
    4294967295 < length
}

// A vertex count outside 1 to 16,777,215.
#[tactic(auto, unfolding(crate::specs::Altered::bad_vertices))]
fn bad_vertices(n: u32) -> bool
    ensures { result ≡ bad_vertices n }
{
    n == 0 || 16777215 < n
}

impl Extent {
    // A buffer of another length than at start, one of which more is used than there is, or one that start would turn down.
    #[tactic(auto, unfolding(crate::specs::Altered::altered_buffer, base::specs::Tests::any_of))]
    fn altered(self, now: usize) -> bool
        ensures { result ≡ altered_buffer self.length self.used now }
    {
        now != self.length || self.length < self.used || too_long(self.length)
    }
}

impl Current {
    // An open unitig of a bad vertex count.
    #[tactic(auto, unfolding(crate::specs::Altered::bad_current))]
    fn is_bad(self) -> bool
        ensures { result ≡ bad_current self }
    {
        match self {
            Current::Nothing => false,
            Current::Open(n) => bad_vertices(n),
        }
    }
}

impl Cell {
    #[tactic(auto, unfolding(crate::specs::Altered::altered_cell, base::specs::Tests::any_of))]
    fn altered(self, now: CellLengths) -> bool
        ensures { result ≡ altered_cell self (cell_lent now) }
    {
        let index = Extent {
            length: self.index,
            used: self.sets as usize + 1,
        };
        self.records.altered(now.records)
            || index.altered(now.index)
            || self.opened.altered(now.opened)
            || self.held.altered(now.held)
            || 255 < self.worker
            || self.current.is_bad()
    }
}

impl Shared {
    #[tactic(auto, unfolding(crate::specs::Altered::altered_shared, base::specs::Tests::any_of))]
    fn altered(self, now: SharedLengths) -> bool
        ensures { result ≡ altered_shared self (shared_lent now) }
    {
        let table = Extent {
            length: self.table,
            used: 2 * self.unitigs as usize,
        };
        self.runs.altered(now.runs) || table.altered(now.table)
    }
}

impl Store {
    // 15, by the lengths of the buffers as they are lent now.
    #[tactic(auto, unfolding(crate::specs::Altered::altered, base::specs::Tests::any_of))]
    pub(crate) fn altered(self, now: Lengths) -> bool
        ensures { result ≡ altered self (all_lent now) }
    {
        codec::records::bad_colors(self.colors)
            || self.cell.altered(now.cell)
            || self.shared.altered(now.shared)
    }
}
