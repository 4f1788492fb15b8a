// Close: a cell's open unitig is filed as run bytes.
// `as` stands where no `From` leads, from u32 to usize and from there to u64: what it converts is proved to fit.
ghost use Rattle.std.specs.Prelude.{◌≡◌, true, ◌≤◌, ◌<◌, length};
ghost use Rattle.base.specs.Answers.{of_written};
ghost use Rattle.runs.specs.Orders.{steady};
ghost use Rattle.runs.specs.Bytes.{run_bytes};
ghost use Rattle.store.specs.State.{bufs, of_answer};
ghost use Rattle.store.specs.Close.{same_close, filed_count, filed_runs, acyclic_runs, close_cell, close_step};
ghost use Rattle.store.specs.Inside.Fits.{CloseFits, CloseReady};
ghost use Rattle.store.specs.Inside.Closing.{table_test, bytes_into, filed_or_full};

use crate::lengths::Lengths;
use crate::opened::OpenRuns;
use crate::state::{Cell, Current, Extent, Last, Shared, Store, Told, Way};
use base::Refusal;

impl Way {
    // How many of n vertices are filed: a cycle's last one is its first again.
    #[tactic(auto, unfolding(crate::specs::Close::filed_count))]
    fn filed_count(self, n: u32) -> u32
        requires { 0 < n }
        ensures { result ≡ filed_count self n }
    {
        match self {
            Way::Line => n,
            Way::Cycle { .. } => n - 1,
        }
    }
}

impl OpenRuns<'_> {
    // Whether it is to be a cycle and does not come back to its first vertex: never of a line.
    #[tactic(auto, unfolding(crate::specs::Close::acyclic_runs))]
    fn is_acyclic(self, way: Way, n: u32) -> bool
        ensures { result ≡ acyclic_runs way n self.entry.runs.now }
    {
        match way {
            Way::Line => false,
            Way::Cycle { .. } => {
                n < 2
                    || runs::reverse::first_coordinate(self.runs, n, false)
                        != runs::orders::last_coordinate(self.runs)
            }
        }
    }

    // Refusal 13, none open; 5, open runs not sharp; 16, a cycle that does not come back; 3, no space in the table.
    #[tactic(auto, using(base::proofs::Tests::tests), unfolding(crate::specs::Inside::Closing::table_test, crate::specs::Close::close_open))]
    fn close_test(self, shared: Shared, way: Way) -> Result<(), Refusal>
        ensures { result ≡ table_test self.entry.cell shared way self.entry.runs.now }
    {
        let Current::Open(n) = self.cell.current else {
            return Err(Refusal::Unopened);
        };
        if !runs::orders::is_sharp(self.runs, n) {
            return Err(Refusal::Damaged);
        }
        if self.is_acyclic(way, n) {
            return Err(Refusal::Acyclic);
        }
        let unitigs = shared.unitigs as usize;
        if shared.table < 2 * unitigs + 2 {
            return Err(Refusal::Space);
        }
        Ok(())
    }

    // The run bytes of their first n vertices behind the `at` used ones: 3 where they don't fit.
    fn file_runs(self, way: Way, n: u32, at: usize, runs: &mut [u8]) -> Result<usize, Refusal>
        requires { (steady n self.runs.now ≡ true) × (n ≤ 16777215) × (at ≤ length runs.old) }
        ensures { (of_written result, runs.new) ≡ bytes_into (run_bytes (filed_runs way n self.entry.runs.now)) at runs.old }
    {
        let out = &mut runs[at..];
        match way {
            Way::Line => runs::bytes::write_unitig_color_runs(self.runs, out),
            Way::Cycle { pivot } => {
                runs::bytes::write_rotated_runs(self.runs, n, pivot, false, out)
            }
        }
    }

    // The run bytes, two numbers in the table, and the new state; or 3.
    fn file_unitig(
        self,
        shared: Shared,
        number: u32,
        way: Way,
        runs: &mut [u8],
        table: &mut [u64],
    ) -> Told<(Cell, Shared), u64>
        requires { CloseReady self.cell shared way self.runs.now (length runs.old) (length table.old) }
        ensures { (of_answer result.answer, result.state.0, result.state.1, runs.new, table.new) ≡ filed_or_full self.entry.cell shared number way self.entry.runs.now runs.old table.old }
    {
        // the tests found it open
        let Current::Open(n) = self.cell.current else {
            unreachable!()
        };
        let vertices = way.filed_count(n);
        let at = shared.runs.used;
        let Ok(len) = self.file_runs(way, vertices, at, runs) else {
            return Told {
                state: (self.cell, shared),
                answer: Err(Refusal::Space),
            };
        };
        let unitigs = shared.unitigs as usize;
        table[2 * unitigs] = at as u64;
        table[2 * unitigs + 1] = u64::from(vertices);
        let place = u64::from(shared.unitigs);
        let cell = Cell {
            opened: Extent {
                used: 0,
                ..self.cell.opened
            },
            current: Current::Nothing,
            number,
            last: Last::Close { way },
            answer: place,
            ..self.cell
        };
        let closed = Shared {
            runs: Extent {
                used: at + len,
                ..shared.runs
            },
            unitigs: shared.unitigs + 1,
            ..shared
        };
        Told {
            state: (cell, closed),
            answer: Ok(place),
        }
    }
}

impl Cell {
    // The open unitig joins the closed ones; answers its place. Refusals 10, 11, 13, 5, 16, 3, in this order.
    #[tactic(auto, unfolding(crate::specs::Close::same_close, crate::specs::Close::same_way))]
    fn close(
        self,
        shared: Shared,
        number: u32,
        way: Way,
        opened: &[u64],
        runs: &mut [u8],
        table: &mut [u64],
    ) -> Told<(Cell, Shared), u64>
        requires { CloseFits self shared (length opened.now) (length runs.old) (length table.old) }
        ensures { (of_answer result.answer, result.state.0, result.state.1, runs.new, table.new) ≡ close_cell self shared number way opened.now runs.old table.old }
    {
        let open_runs = OpenRuns::of(self, opened);
        let same = ||
            ensures { result ≡ same_close self.last way }
        { self.last == Last::Close { way } };
        let test = ||
            ensures { result ≡ table_test open_runs.entry.cell shared way open_runs.entry.runs.now }
        { open_runs.close_test(shared, way) };
        let gate = self.gate(number, same, test);
        match gate.transpose() {
            Some(answer) => Told {
                state: (self, shared),
                answer,
            },
            None => open_runs.file_unitig(shared, number, way, runs, table),
        }
    }
}

impl Store {
    // Refusal 15, altered state or buffers; then the cell's close.
    #[tactic(auto, using(base::proofs::Tests::tests), unfolding(crate::specs::Close::close_step))]
    pub fn close(
        self,
        number: u32,
        way: Way,
        records: &[u8],
        index: &[u64],
        opened: &[u64],
        held: &[u64],
        runs: &mut [u8],
        table: &mut [u64],
    ) -> Told<Store, u64>
        ensures { (of_answer result.answer, result.state, bufs records.now index.now opened.now held.now runs.new table.new)
            ≡ close_step self (bufs records.now index.now opened.now held.now runs.old table.old) number way }
    {
        if self.altered(Lengths::of(records, index, opened, held, runs, table)) {
            return Told {
                state: self,
                answer: Err(Refusal::Altered),
            };
        }
        let told = self
            .cell
            .close(self.shared, number, way, opened, runs, table);
        let (cell, shared) = told.state;
        Told {
            state: Store {
                cell,
                shared,
                ..self
            },
            answer: told.answer,
        }
    }
}
