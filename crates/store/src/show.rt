// Show: the set of a vertex of a closed unitig.
// `as` stands where no `From` leads, from u32 and u64 to usize and back, and from u64 to u32: what it converts is proved to fit.
ghost use Rattle.std.specs.Prelude.{◌≡◌, ◌*◌, ◌<◌, ◌≤◌, length, take};
ghost use Rattle.std.proofs.Math.Option.{some};
ghost use Rattle.store.specs.State.{bufs, of_answer};
ghost use Rattle.store.specs.Filed.{set_from};
ghost use Rattle.store.specs.Show.{coord_from, vertex_coord, no_place, shown_by, show_step, with_state};
ghost use Rattle.store.specs.Inside.Showing.{by_seek, damage_or, of_read, seek_of};

use crate::filed::Filed;
use crate::lengths::Lengths;
use crate::state::{Shared, Store, Told};
use base::{Given, Refusal};

// A record that can't be read is damaged, whatever is wrong with it; want of space stays what it is.
#[tactic(auto, using(base::proofs::Tests::tests), unfolding(crate::specs::Inside::Showing::damage_or))]
fn damage_or(r: Refusal) -> Refusal
    ensures { result ≡ damage_or r }
{
    match r {
        Refusal::Space => Refusal::Space,
        _ => Refusal::Damaged,
    }
}

// What show answers of a read: how many ids.
fn read_answer(got: Result<Given, Refusal>) -> Result<u64, Refusal>
    ensures { result ≡ of_read got }
{
    got.map(|given| given.items as u64).map_err(damage_or)
}

// The closed unitigs: the used parts of the run file and of the table.
#[derive(Clone, Copy)]
struct Closed<'a> {
    shared: Shared,
    runs: &'a [u8],
    table: &'a [u64],
    ghost whole: { length runs.now ≡ shared.runs.used },
    ghost pairs: { length table.now ≡ 2 * shared.unitigs },
}

impl<'a> Closed<'a> {
    ghost use Rattle.store.specs.Inside.Fits.{Fits};
    ghost use Rattle.store.specs.Inside.Places.{option_of};

    fn of(shared: Shared, runs: &'a [u8], table: &'a [u64]) -> Self
        requires runs { Fits shared.runs.length shared.runs.used (length runs.now) }
        requires table { Fits shared.table (2 * shared.unitigs) (length table.now) }
        ensures { (result.shared ≡ shared) × (result.runs.now ≡ take shared.runs.used runs.now) × (result.table.now ≡ take (2 * shared.unitigs) table.now) }
    {
        Self {
            shared,
            runs: shared.runs.part(runs),
            table: &table[..2 * shared.unitigs as usize],
        }
    }

    // The coordinate of a vertex of a unitig of n vertices whose run bytes begin at `at`, where they are whole and sharp.
    #[tactic(auto, using(base::proofs::Tests::tests), unfolding(crate::specs::Show::coord_from))]
    fn color_from(self, at: usize, n: u64, vertex: u32) -> Option<u64>
        ensures { option_of result ≡ coord_from self.entry.shared self.entry.runs.now at n vertex }
    {
        if 16777215 < n {
            return None;
        }
        let filed = self.runs.get(at..)?;
        runs::bytes::sharp_color_at(filed, n as u32, vertex).ok()
    }

    // Whether there is no such closed unitig, or no such vertex of it.
    #[tactic(auto, using(base::proofs::Tests::tests), unfolding(crate::specs::Show::no_place))]
    fn no_place(self, unitig: u32, vertex: u32) -> bool
        ensures { result ≡ no_place self.entry.shared self.entry.table.now unitig vertex }
    {
        let count = self.table.get(2 * unitig as usize + 1);
        count.is_none_or(|n| *n <= u64::from(vertex))
    }

    // The coordinate of a vertex of a unitig that there is.
    fn vertex_color(self, unitig: u32, vertex: u32) -> Option<u64>
        requires { unitig < self.shared.unitigs }
        ensures { option_of result ≡ vertex_coord self.entry.shared self.entry.runs.now self.entry.table.now unitig vertex }
    {
        let rest = &self.table[2 * unitig as usize..];
        let [at, n] = *rest.first_chunk::<2>().unwrap();
        self.color_from(at as usize, n, vertex)
    }
}

impl Filed<'_> {
    // The set of the record at `at` to the front of `out`; refusal 5, damaged, or 3, no space.
    fn give(self, at: usize, out: &mut [u32]) -> Result<u64, Refusal>
        requires { at ≤ self.cell.records.used }
        ensures { (of_answer result, out.new) ≡ shown_by (set_from self.entry.colors self.entry.cell self.entry.file.now (some at)) out.old }
    {
        read_answer(codec::records::read_color_record(self.colors, &self.file[at..], out))
    }

    // Refusal 14, no such place; 5, damaged; otherwise where the record lies.
    #[tactic(auto, using(base::proofs::Tests::tests), unfolding(crate::specs::Inside::Showing::seek_of, crate::specs::Inside::Showing::seek_by, crate::specs::Inside::Showing::place_by))]
    fn seek(self, closed: Closed, unitig: u32, vertex: u32) -> Result<usize, Refusal>
        ensures { result ≡ seek_of self.entry.cell closed.entry.shared self.entry.index.now closed.entry.runs.now closed.entry.table.now unitig vertex }
    {
        if closed.no_place(unitig, vertex) {
            return Err(Refusal::Place);
        }
        let color = closed.vertex_color(unitig, vertex);
        let coord = color.ok_or(Refusal::Damaged)?;
        self.record_start(coord).ok_or(Refusal::Damaged)
    }

    // The tests of a show but 15, and the set of the record that they find.
    #[tactic(auto, unfolding(crate::specs::Inside::Showing::by_seek))]
    fn show(self, closed: Closed, unitig: u32, vertex: u32, out: &mut [u32]) -> Result<u64, Refusal>
        ensures { (of_answer result, out.new) ≡ by_seek self.entry.colors self.entry.cell self.entry.file.now (seek_of self.entry.cell closed.entry.shared self.entry.index.now closed.entry.runs.now closed.entry.table.now unitig vertex) out.old }
    {
        let at = self.seek(closed, unitig, vertex)?;
        self.give(at, out)
    }
}

impl Store {
    // The ids of a vertex's set to the front of `out`; answers how many. Refusals 15, 14, 5, 3, in this order.
    pub fn show(
        self,
        unitig: u32,
        vertex: u32,
        out: &mut [u32],
        records: &[u8],
        index: &[u64],
        opened: &[u64],
        held: &[u64],
        runs: &[u8],
        table: &[u64],
    ) -> Told<Store, u64>
        ensures { (of_answer result.answer, result.state, out.new) ≡ with_state self (show_step self (bufs records.now index.now opened.now held.now runs.now table.now) unitig vertex out.old) }
    {
        if self.altered(Lengths::of(records, index, opened, held, runs, table)) {
            return Told {
                state: self,
                answer: Err(Refusal::Altered),
            };
        }
        let filed = Filed::of(self.cell, self.colors, records, index);
        let closed = Closed::of(self.shared, runs, table);
        Told {
            state: self,
            answer: filed.show(closed, unitig, vertex, out),
        }
    }
}
