// What a cell has filed, read back: the record that a coordinate names.
// `as` stands where no `From` leads, from u64 to usize: what it converts is proved to fit.
ghost use Rattle.std.specs.Prelude.{◌≡◌, false, ◌<◌, ◌≤◌, length, take};
ghost use Rattle.codec.specs.Records.{bad_colors};

use crate::state::Cell;

impl Cell {
    ghost use Rattle.store.specs.Filed.{unnamed};

    // A coordinate of another worker, or of a set that there is not.
    #[tactic(auto, using(base::proofs::Tests::tests), unfolding(crate::specs::Filed::unnamed))]
    pub(crate) fn unnamed(self, coord: u64) -> bool
        ensures { result ≡ unnamed self.worker self.sets coord }
    {
        runs::words::worker(coord) != self.worker
            || u64::from(self.sets) <= runs::words::place(coord)
    }
}

// A cell with the sets that it has filed, of so many colours: the used part of their file, and the index.
#[derive(Clone, Copy)]
pub(crate) struct Filed<'a> {
    pub(crate) cell: Cell,
    pub(crate) colors: u32,
    pub(crate) file: &'a [u8],
    pub(crate) index: &'a [u64],
    ghost limits: { bad_colors colors ≡ false },
    ghost whole: { length file.now ≡ cell.records.used },
    ghost inside: { cell.records.used ≤ cell.records.length },
    ghost entries: { cell.sets < length index.now },
}

impl<'a> Filed<'a> {
    ghost use Rattle.std.proofs.Math.Option.{some};
    ghost use Rattle.store.specs.Filed.{record_start, set_from, set_at, reads_as};
    ghost use Rattle.store.specs.Inside.Fits.{AddFits};
    ghost use Rattle.store.specs.Inside.Places.{option_of};

    pub(crate) fn of(cell: Cell, colors: u32, records: &'a [u8], index: &'a [u64]) -> Self
        requires { AddFits colors cell (length records.now) (length index.now) }
        ensures { (result.cell ≡ cell) × (result.colors ≡ colors) × (result.file.now ≡ take cell.records.used records.now) × (result.index.now ≡ index.now) }
    {
        Self {
            cell,
            colors,
            file: cell.records.part(records),
            index,
        }
    }

    // The start of the record that a coordinate names, unless its index entry lies beyond the used end of the file.
    #[tactic(auto, using(base::proofs::Tests::tests), unfolding(crate::specs::Filed::record_start, crate::specs::Filed::unnamed))]
    pub(crate) fn record_start(self, coord: u64) -> Option<usize>
        ensures { option_of result ≡ record_start self.entry.cell self.entry.index.now coord }
    {
        if self.cell.unnamed(coord) {
            return None;
        }
        let place = runs::words::place(coord) as usize;
        let at = self.index[place] as usize;
        if self.cell.records.used < at {
            return None;
        }
        Some(at)
    }

    // Whether the record that begins at `at` reads to exactly these ids.
    #[tactic(auto, using(crate::proofs::Laws::Adding::part_reads))]
    fn reads_to(self, at: usize, ids: &[u32]) -> bool
        requires { at ≤ self.cell.records.used }
        ensures { result ≡ reads_as (set_from self.entry.colors self.entry.cell self.entry.file.now (some at)) ids.now }
    {
        codec::records::is_color_record(self.colors, ids, &self.file[at..])
    }

    // Whether the record that a coordinate names reads to exactly these ids.
    #[tactic(auto, using(crate::proofs::Laws::Adding::start_within), unfolding(crate::specs::Filed::set_at, crate::specs::Filed::set_from, crate::specs::Filed::reads_as))]
    pub(crate) fn names_set(self, coord: u64, ids: &[u32]) -> bool
        ensures { result ≡ reads_as (set_at self.entry.colors self.entry.cell self.entry.file.now self.entry.index.now coord) ids.now }
    {
        match self.record_start(coord) {
            None => false,
            Some(at) => self.reads_to(at, ids),
        }
    }
}
