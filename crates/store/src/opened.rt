// A cell with its open runs, which join and close read.
ghost use Rattle.std.specs.Prelude.{◌≡◌, ◌≤◌, false, length, take};
ghost use Rattle.store.specs.Altered.{bad_current};

use crate::state::Cell;

// The used part of their buffer.
#[derive(Clone, Copy)]
pub(crate) struct OpenRuns<'a> {
    pub(crate) cell: Cell,
    pub(crate) runs: &'a [u64],
    ghost whole: { length runs.now ≡ cell.opened.used },
    ghost inside: { cell.opened.used ≤ cell.opened.length },
    ghost few: { cell.opened.used ≤ 4294967295 },
    ghost sound: { bad_current cell.current ≡ false },
}

impl<'a> OpenRuns<'a> {
    ghost use Rattle.store.specs.Inside.Fits.{Fits};

    pub(crate) fn of(cell: Cell, opened: &'a [u64]) -> Self
        requires { (Fits cell.opened.length cell.opened.used (length opened.now)) × (bad_current cell.current ≡ false) }
        ensures { (result.cell ≡ cell) × (result.runs.now ≡ take cell.opened.used opened.now) }
    {
        Self {
            cell,
            runs: cell.opened.part(opened),
        }
    }
}
