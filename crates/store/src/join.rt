// Join: a piece behind a cell's open unitig, or the first of a new one.
// `as` stands once: no `From` leads from u64 to u32, and the count is proved to fit.
ghost use Rattle.std.specs.Prelude.{◌≡◌, ◌<◌, ◌≤◌, length};
ghost use Rattle.runs.specs.Merge.{merge};
ghost use Rattle.runs.specs.Orders.{most_vertices};
ghost use Rattle.store.specs.State.{bufs, of_answer};
ghost use Rattle.store.specs.Join.{all_named, same_join, open_count, open_at, open_space, join_test, join_filed, join_cell, join_step};
ghost use Rattle.store.specs.Inside.Fits.{JoinFits, JoinReady, OpenReady, open_after};
ghost use Rattle.store.specs.Inside.Joining.{meet_test, of_piece};

use crate::lengths::Lengths;
use crate::opened::OpenRuns;
use crate::state::{Cell, Current, Extent, Last, Store, Told};
use base::Refusal;

// The list that a call sends: so many vertices, to be read either way.
#[derive(Clone, Copy)]
struct Piece<'a> {
    n: u32,
    reversed: bool,
    runs: &'a [u64],
}

// A sharp one, and how many runs it has once equal neighbours are merged.
#[derive(Clone, Copy)]
struct SharpPiece<'a> {
    sent: Piece<'a>,
    merged: usize,
    ghost few: { sent.n ≤ most_vertices },
    ghost some: { 0 < length sent.runs.now },
    ghost count: { merged ≡ length (merge sent.runs.now) },
}

impl Cell {
    // Whether every coordinate of a list names a set.
    fn all_named(self, runs: &[u64]) -> bool
        ensures { result ≡ all_named self.worker self.sets runs.now }
    {
        runs.iter()
            .all(|run| !self.unnamed(runs::words::coordinate(*run)))
    }

    // The vertex count with a piece of n more.
    #[tactic(auto, unfolding(crate::specs::Join::open_count))]
    fn new_count(self, n: u32) -> u64
        requires { 0 < n }
        ensures { result ≡ open_count self.current n }
    {
        match self.current {
            Current::Nothing => u64::from(n),
            Current::Open(m) => u64::from(m) + u64::from(n) - 1,
        }
    }

    // Where new open runs go.
    #[tactic(auto, unfolding(crate::specs::Join::open_at))]
    fn open_at(self) -> usize
        ensures { result ≡ open_at self.current self.opened.used }
    {
        match self.current {
            Current::Nothing => 0,
            Current::Open(_) => self.opened.used,
        }
    }
}

impl OpenRuns<'_> {
    // Refusal 3, no space for the open runs or the held piece.
    #[tactic(auto, using(base::proofs::Tests::tests), unfolding(crate::specs::Join::open_space, crate::specs::Join::open_at))]
    fn open_space(self, new: usize, held: usize) -> Result<(), Refusal>
        ensures { result ≡ open_space self.entry.cell new held }
    {
        let at = self.cell.open_at();
        if self.cell.opened.length - at < new || self.cell.held.length < held {
            return Err(Refusal::Space);
        }
        Ok(())
    }

    // With an open unitig of m vertices: refusal 5, its runs not sharp; 8, the piece begins elsewhere; 3, no space for it. It begins on the
    // last open coordinate, and so loses its first run.
    #[tactic(auto, using(base::proofs::Tests::tests, crate::proofs::Laws::Joining::new_behind), unfolding(crate::specs::Join::open_test))]
    fn meet_open(self, m: u32, piece: SharpPiece) -> Result<(), Refusal>
        requires { self.cell.current ≡ Current.Open m }
        ensures { result ≡ of_piece (meet_test self.entry.cell self.entry.runs.now) piece.entry.sent }
    {
        let Piece { n, reversed, runs } = piece.sent;
        if !runs::orders::is_sharp(self.runs, m) {
            return Err(Refusal::Damaged);
        }
        if runs::orders::last_coordinate(self.runs)
            != runs::reverse::first_coordinate(runs, n, reversed)
        {
            return Err(Refusal::Junction);
        }
        self.open_space(piece.merged - 1, runs.len())
    }

    // Refusals 5, 8 where a unitig is open; then 3, no space.
    #[tactic(auto, using(base::proofs::Tests::tests, crate::proofs::Laws::Joining::new_first), unfolding(crate::specs::Join::open_test))]
    fn meet(self, piece: SharpPiece) -> Result<(), Refusal>
        ensures { result ≡ of_piece (meet_test self.entry.cell self.entry.runs.now) piece.entry.sent }
    {
        match self.cell.current {
            Current::Nothing => self.open_space(piece.merged, piece.sent.runs.len()),
            Current::Open(m) => self.meet_open(m, piece),
        }
    }

    // Refusal 7, vertex count; 6, not sharp; 9, a coordinate that names no set; then 5, 8, 3.
    #[tactic(auto, using(base::proofs::Tests::tests, crate::proofs::Laws::Parts::take_whole), unfolding(crate::specs::Join::join_test))]
    fn join_test(self, piece: Piece) -> Result<(), Refusal>
        ensures { result ≡ of_piece (join_test self.entry.cell self.entry.runs.now) piece.entry }
    {
        if piece.n == 0 || 16777215 < self.cell.new_count(piece.n) {
            return Err(Refusal::Vertices);
        }
        let Some(merged) = runs::orders::merged_count(piece.runs, piece.n) else {
            return Err(Refusal::Runs);
        };
        if !self.cell.all_named(piece.runs) {
            return Err(Refusal::Coordinate);
        }
        self.meet(SharpPiece {
            sent: piece,
            merged,
        })
    }
}

impl Cell {
    // The new open runs, and how many there are then.
    fn put_open(self, piece: Piece, opened: &mut [u64]) -> usize
        requires { OpenReady self piece.n piece.reversed piece.runs.now opened.old }
        ensures { (result, opened.new) ≡ of_piece (open_after self) piece.entry opened.old }
    {
        let Piece { n, reversed, runs } = piece;
        match self.current {
            Current::Nothing => {
                runs::merge::merge_color_runs(runs, n, reversed, opened).unwrap()
            }
            Current::Open(m) => {
                let used = self.opened.used;
                let appended = runs::append::append_color_runs(opened, used, m, runs, n, reversed);
                appended.unwrap().runs
            }
        }
    }

    // The new open runs, the piece as sent, and the new state.
    fn join_piece(
        self,
        number: u32,
        piece: Piece,
        opened: &mut [u64],
        held: &mut [u64],
    ) -> Told<Cell, u64>
        requires { JoinReady self piece.n piece.reversed piece.runs.now opened.old (length held.old) }
        ensures { (of_answer result.answer, result.state, opened.new, held.new) ≡ of_piece (join_filed self number) piece.entry opened.old held.old }
    {
        let Piece { n, reversed, runs } = piece;
        let total = self.put_open(piece, opened);
        let kept = runs::reverse::orient_color_runs(runs, n, false, held).unwrap();
        let count = self.new_count(n);
        let state = Cell {
            opened: Extent {
                used: total,
                ..self.opened
            },
            held: Extent {
                used: kept,
                ..self.held
            },
            current: Current::Open(count as u32),
            number,
            last: Last::Join { n, reversed },
            answer: count,
            ..self
        };
        Told {
            state,
            answer: Ok(count),
        }
    }

    // A piece joins the open unitig; answers the new vertex count. Refusals 10, 11, 7, 6, 9, 5, 8, 3, in this order.
    #[tactic(auto, using(crate::proofs::Laws::Joining::same_held), unfolding(crate::specs::Join::same_join, crate::specs::Join::alike))]
    fn join(
        self,
        number: u32,
        piece: Piece,
        opened: &mut [u64],
        held: &mut [u64],
    ) -> Told<Cell, u64>
        requires { JoinFits self (length opened.old) (length held.old) }
        ensures { (of_answer result.answer, result.state, opened.new, held.new) ≡ of_piece (join_cell self number) piece.entry opened.old held.old }
    {
        let open_runs = OpenRuns::of(self, opened);
        let last = self.held.part(held);
        let same = ||
            ensures { result ≡ same_join (length last.entry.now) last.entry.now self.last piece.entry.n piece.entry.reversed piece.entry.runs.now }
        {
            let Piece { n, reversed, runs } = piece;
            self.last == Last::Join { n, reversed } && last == runs
        };
        let test = ||
            ensures { result ≡ of_piece (join_test open_runs.entry.cell open_runs.entry.runs.now) piece.entry }
        { open_runs.join_test(piece) };
        let gate = self.gate(number, same, test);
        match gate.transpose() {
            Some(answer) => Told {
                state: self,
                answer,
            },
            None => self.join_piece(number, piece, opened, held),
        }
    }
}

impl Store {
    // Refusal 15, altered state or buffers; then the cell's join.
    #[tactic(auto, using(base::proofs::Tests::tests), unfolding(crate::specs::Join::join_step))]
    pub fn join(
        self,
        number: u32,
        n: u32,
        reversed: bool,
        piece: &[u64],
        records: &[u8],
        index: &[u64],
        opened: &mut [u64],
        held: &mut [u64],
        runs: &[u8],
        table: &[u64],
    ) -> Told<Store, u64>
        ensures { (of_answer result.answer, result.state, bufs records.now index.now opened.new held.new runs.now table.now)
            ≡ join_step self (bufs records.now index.now opened.old held.old runs.now table.now) number n reversed piece.now }
    {
        if self.altered(Lengths::of(records, index, opened, held, runs, table)) {
            return Told {
                state: self,
                answer: Err(Refusal::Altered),
            };
        }
        let piece = Piece {
            n,
            reversed,
            runs: piece,
        };
        let told = self.cell.join(number, piece, opened, held);
        Told {
            state: Store {
                cell: told.state,
                ..self
            },
            answer: told.answer,
        }
    }
}
