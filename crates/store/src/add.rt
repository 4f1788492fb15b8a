// Add: one set more in a cell's record file.
// `as` stands where no `From` leads, from u32 to usize and from there to u64: what it converts is proved to fit.
ghost use Rattle.std.specs.Prelude.{◌≡◌, ◌≤◌, false, length, Ok};
ghost use Rattle.codec.specs.Records.{bad_colors};
ghost use Rattle.store.specs.State.{bufs, of_answer};
ghost use Rattle.store.specs.Add.{no_space, same_add, add_test, add_filed, add_cell, add_step};
ghost use Rattle.store.specs.Inside.Adding.{set_found, add_next};
ghost use Rattle.store.specs.Inside.Fits.{AddFits, AddReady};

use crate::filed::Filed;
use crate::lengths::Lengths;
use crate::state::{Cell, Extent, Last, Store, Told};
use base::Refusal;
use codec::measured::Measured;

impl Cell {
    // Whether a record of so many bytes, or its index entry, doesn't fit.
    #[tactic(auto, using(base::proofs::Tests::tests), unfolding(crate::specs::Add::no_space))]
    fn no_space(self, len: usize) -> bool
        requires { self.records.used ≤ self.records.length }
        ensures { result ≡ no_space self len }
    {
        self.records.length - self.records.used < len || self.index < self.sets as usize + 2
    }

    // Refusal 2, ids that are no set; 3, no space. The set is handed on as it was measured here.
    #[tactic(auto, using(base::proofs::Tests::tests), unfolding(crate::specs::Add::add_test, codec::specs::Records::measured))]
    fn add_test(self, colors: u32, ids: &[u32]) -> Result<Measured<'_>, Refusal>
        requires { (bad_colors colors ≡ false) × (self.records.used ≤ self.records.length) }
        ensures { result ≡ set_found colors ids.now (add_test colors self ids.now) }
    {
        // the colours are within their limits, so that it can only refuse the ids
        let set = Measured::new(colors, ids)?;
        if self.no_space(set.record_len()) {
            return Err(Refusal::Space);
        }
        Ok(set)
    }

    // The record behind the used bytes, its end in the index, and the new state.
    fn file_set(
        self,
        number: u32,
        set: &Measured,
        records: &mut [u8],
        index: &mut [u64],
    ) -> Told<Cell, u64>
        requires { AddReady set.now.0 self set.now.1 (length records.old) (length index.old) }
        ensures { (of_answer result.answer, result.state, records.new, index.new) ≡ add_filed set.now.0 self number set.now.1 records.old index.old }
    {
        let at = self.records.used;
        let sets = self.sets as usize;
        let len = set.write_record(&mut records[at..]).unwrap();
        let end = at + len;
        index[sets + 1] = end as u64;
        let coord = runs::words::coordinate_of(self.worker, self.sets);
        let state = Cell {
            records: Extent {
                used: end,
                ..self.records
            },
            sets: self.sets + 1,
            number,
            last: Last::Add,
            answer: coord,
            ..self
        };
        Told {
            state,
            answer: Ok(coord),
        }
    }

    // An add with the next number. Refusals 2, 3, in this order.
    fn add_next(
        self,
        colors: u32,
        number: u32,
        ids: &[u32],
        records: &mut [u8],
        index: &mut [u64],
    ) -> Told<Cell, u64>
        requires { AddFits colors self (length records.old) (length index.old) }
        ensures { (of_answer result.answer, result.state, records.new, index.new) ≡ add_next colors self number ids.now records.old index.old }
    {
        match self.add_test(colors, ids) {
            Err(refusal) => Told {
                state: self,
                answer: Err(refusal),
            },
            Ok(set) => self.file_set(number, &set, records, index),
        }
    }

    // A set joins the accepted ones; answers its coordinate. Whether a unitig is open isn't asked, and one that is stays as it
    // is. Refusals 10, 11, 2, 3, in this order.
    #[tactic(auto, unfolding(crate::specs::Add::same_add))]
    fn add(
        self,
        colors: u32,
        number: u32,
        ids: &[u32],
        records: &mut [u8],
        index: &mut [u64],
    ) -> Told<Cell, u64>
        requires { AddFits colors self (length records.old) (length index.old) }
        ensures { (of_answer result.answer, result.state, records.new, index.new) ≡ add_cell colors self number ids.now records.old index.old }
    {
        let filed = Filed::of(self, colors, records, index);
        let same = ||
            ensures { result ≡ same_add filed.entry.colors filed.entry.cell filed.entry.file.now filed.entry.index.now filed.entry.cell.last ids.entry.now }
        { filed.cell.last == Last::Add && filed.names_set(filed.cell.answer, ids) };
        // the tests of the ids are not the gate's: they measure the set that is filed
        let untested = ||
            ensures { result ≡ Ok tt }
        { Ok(()) };
        let gate = self.gate(number, same, untested);
        // a match, as in close and join: by `map_or_else` nothing would be known of the buffers where the closure that they
        // are lent to isn't called
        match gate.transpose() {
            Some(answer) => Told {
                state: self,
                answer,
            },
            None => self.add_next(colors, number, ids, records, index),
        }
    }
}

impl Store {
    // Refusal 15, altered state or buffers; then the cell's add.
    #[tactic(auto, using(base::proofs::Tests::tests), unfolding(crate::specs::Add::add_step))]
    pub fn add(
        self,
        number: u32,
        ids: &[u32],
        records: &mut [u8],
        index: &mut [u64],
        opened: &[u64],
        held: &[u64],
        runs: &[u8],
        table: &[u64],
    ) -> Told<Store, u64>
        ensures { (of_answer result.answer, result.state, bufs records.new index.new opened.now held.now runs.now table.now)
            ≡ add_step self (bufs records.old index.old opened.now held.now runs.now table.now) number ids.now }
    {
        // this head stands in each of the four calls: no `?` can return it, since the state goes back beside the answer
        if self.altered(Lengths::of(records, index, opened, held, runs, table)) {
            return Told {
                state: self,
                answer: Err(Refusal::Altered),
            };
        }
        let told = self.cell.add(self.colors, number, ids, records, index);
        Told {
            state: Store {
                cell: told.state,
                ..self
            },
            answer: told.answer,
        }
    }
}
