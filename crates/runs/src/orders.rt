// Steady and sharp lists, how many runs a sharp one has once merged, and where runs end.
ghost use Rattle.std.specs.Prelude.{◌≡◌, ◌+◌, ◌-◌, ◌*◌, ◌^◌, ◌<◌, ◌≤◌, length, MatchResult};
ghost use Rattle.runs.specs.Colours.{end_at, last_coord};
ghost use Rattle.runs.specs.Orders.{steady, sharp};
ghost use Rattle.runs.specs.Inside.Lists.{Taken};
ghost use Rattle.runs.specs.Inside.Refusals.{IsTurnedDown};
ghost use Rattle.runs.specs.Inside.Falls.{Testable, gap, mark, total, of_eight, framed, spaced, never_falls};
ghost use Rattle.runs.specs.Merge.{merged_count};

use crate::listed::Runs;
use crate::words;
use base::Refusal;

// A list, and how many vertices each run is to begin behind the one before it, at least: none in a steady list, one in a sharp one. Where it
// begins fewer behind, the list falls. Of each place is counted 2^24 where the list falls, and ALIKE where two neighbours have one coordinate.
#[derive(Drop)]
struct Places<R: Runs> {
    runs: R,
    step: u64,
    ghost testable: { Testable step (R.list runs) },
}

impl<R: Runs> Places<R> {
    // How far run p + 1 begins behind run p, less `step`, modulo 2^24; and what is counted where they are alike. These add up, along a list,
    // to the last offset less the first and to what is counted, so that no fall is looked for at a place. A number, so that several are
    // added at a time.
    fn gap_at<const ALIKE: u64>(&self, p: usize) -> u64
        requires { (p + 1 < length (R.list self.now.runs)) × (ALIKE ≤ 1) }
        ensures { (result ≡ gap self.now.step ALIKE (R.list self.now.runs) p) × (result ≤ 16777216) }
    {
        let run = self.runs.run_at(p);
        let next = self.runs.run_at(p + 1);
        let behind = (next % 16777216 + (16777216 - self.step) - run % 16777216) % 16777216;
        let alike = run / 16777216 == next / 16777216;
        behind + ALIKE * u64::from(alike)
    }

    // At eight places, each `apart` behind the one before. Eight are written out, so that they are read side by side.
    fn gaps_of_eight<const ALIKE: u64>(&self, p: usize, apart: usize) -> u64
        requires { (0 < apart) × (7 * apart + p + 1 < length (R.list self.now.runs)) × (ALIKE ≤ 1) }
        ensures { result ≡ of_eight (gap self.now.step ALIKE (R.list self.now.runs)) apart p }
    {
        self.gap_at::<ALIKE>(p)
            + self.gap_at::<ALIKE>(apart + p)
            + self.gap_at::<ALIKE>(2 * apart + p)
            + self.gap_at::<ALIKE>(3 * apart + p)
            + self.gap_at::<ALIKE>(4 * apart + p)
            + self.gap_at::<ALIKE>(5 * apart + p)
            + self.gap_at::<ALIKE>(6 * apart + p)
            + self.gap_at::<ALIKE>(7 * apart + p)
    }

    // At 8 * `eighth` places from `from` on. Eight parts are read side by side: so a list in far memory is read sooner.
    fn gaps_in_eighths<const ALIKE: u64>(&self, from: usize, eighth: usize) -> u64
        requires { (from + 8 * eighth < length (R.list self.now.runs)) × (8 * eighth ≤ 16777216) × (ALIKE ≤ 1) }
        ensures { result ≡ total (gap self.now.step ALIKE (R.list self.now.runs)) from (8 * eighth) }
    {
        (from..from + eighth)
            .map(
                |p|
                    requires { (0 < eighth) × (7 * eighth + p + 1 < length (R.list self.now.runs)) × (ALIKE ≤ 1) }
                    ensures { result ≡ of_eight (gap self.entry.now.step ALIKE (R.list self.entry.now.runs)) eighth p }
                { self.gaps_of_eight::<ALIKE>(p, eighth) },
            )
            .sum()
    }

    // At the places from `from` to `until`.
    fn gaps_between<const ALIKE: u64>(&self, from: usize, until: usize) -> u64
        requires { (from ≤ until) × (until < length (R.list self.now.runs)) × (until - from ≤ 16777216) × (ALIKE ≤ 1) }
        ensures { result ≡ total (gap self.now.step ALIKE (R.list self.now.runs)) from (until - from) }
    {
        (from..until)
            .map(
                |p|
                    requires { (p + 1 < length (R.list self.now.runs)) × (ALIKE ≤ 1) }
                    ensures { result ≡ gap self.entry.now.step ALIKE (R.list self.entry.now.runs) p }
                { self.gap_at::<ALIKE>(p) },
            )
            .sum()
    }

    // What is counted at `places` places from `from` on: no more than are added up in one number.
    fn marks<const ALIKE: u64>(&self, from: usize, places: usize) -> u64
        requires { (from + places < length (R.list self.now.runs)) × (places ≤ 16777216) × (ALIKE ≤ 1) }
        ensures { result ≡ total (mark self.now.step ALIKE (R.list self.now.runs)) from places }
    {
        let eighth = places / 8;
        let until = from + places;
        let gaps = self.gaps_in_eighths::<ALIKE>(from, eighth)
            + self.gaps_between::<ALIKE>(from + 8 * eighth, until);
        let first = self.runs.run_at(from) % 16777216;
        let last = self.runs.run_at(until) % 16777216;
        first + self.step * places as u64 + gaps - last
    }

    // Whether the list falls nowhere. In parts, so that the work ends soon behind a fall.
    fn never_falls(&self) -> bool
        requires { 0 < length (R.list self.now.runs) }
        ensures { result ≡ never_falls self.now.step (R.list self.now.runs) }
    {
        let places = self.runs.count() - 1;
        let mut from = 0;
        while 8000 < places - from {
            if self.marks::<0>(from, 8000) != 0 {
                return false;
            }
            from += 8000;
        }
        self.marks::<0>(from, places - from) == 0
    }

    // Whether the first run begins at vertex 0, and the last at least `step` vertices before n.
    fn is_framed(&self, n: u32) -> bool
        requires { 0 < length (R.list self.now.runs) }
        ensures { result ≡ framed self.now.step n (R.list self.now.runs) }
    {
        words::offset(self.runs.run_at(0)) == 0
            && u64::from(words::offset(self.runs.run_at(self.runs.count() - 1))) + self.step
                <= u64::from(n)
    }
}

// Whether a list is framed, and no run of it begins less than `step` vertices behind the one before it.
fn is_spaced<R: Runs>(runs: R, step: u64, n: u32) -> bool
    requires { (0 < length (R.list runs)) × (length (R.list runs) < 2 ^ 61) × (step ≤ 1) }
    ensures { result ≡ spaced step n (R.list runs) }
{
    let places = Places { runs, step };
    places.is_framed(n) && places.never_falls()
}

// Whether a list is sharp for n vertices.
#[tactic(auto, using(crate::proofs::Laws::Falls::sharp_spaced, crate::proofs::Laws::Orders::sharp_none))]
pub(crate) fn are_sharp<R: Runs>(runs: R, n: u32) -> bool
    ensures { result ≡ sharp n (R.list runs) }
{
    0 < runs.count() && is_spaced(runs, 1, n)
}

// Whether the list is steady for n vertices.
#[tactic(auto, using(crate::proofs::Laws::Falls::steady_spaced, crate::proofs::Laws::Orders::steady_none))]
pub fn is_steady(runs: &[u64], n: u32) -> bool
    ensures { result ≡ steady n runs.now }
{
    runs.is_empty() || is_spaced(runs, 0, n)
}

// Whether the list is sharp for n vertices.
pub fn is_sharp(runs: &[u64], n: u32) -> bool
    ensures { result ≡ sharp n runs.now }
{
    are_sharp(runs, n)
}

// How many runs the list has once its equal neighbours are merged, or none where it isn't sharp for n vertices: one pass makes the test and
// the count. Its marks are told apart, since a sharp list has no more runs than there are offsets.
pub fn merged_count(runs: &[u64], n: u32) -> Option<usize>
    ensures { result ≡ merged_count n runs.now }
{
    if runs.is_empty() || 16777216 < runs.len() {
        return None;
    }
    let places = Places { runs, step: 1 };
    if !places.is_framed(n) {
        return None;
    }
    let marks = places.marks::<1>(0, runs.len() - 1);
    if 16777216 <= marks {
        return None;
    }
    Some(runs.len() - marks as usize)
}

// Whether reverse and rotate take the list: 7, a vertex count above its limit, then 6, not steady.
pub(crate) fn check_steady(runs: &[u64], n: u32) -> Result<(), Refusal>
    ensures { MatchResult result (λ _. Taken n runs.now) (IsTurnedDown n runs.now) }
{
    if 16777215 < n {
        return Err(Refusal::Vertices);
    }
    if !is_steady(runs, n) {
        return Err(Refusal::Runs);
    }
    Ok(())
}

// Where run i ends.
pub(crate) fn end_of(runs: &[u64], n: u32, i: usize) -> u32
    requires { i < length runs.now }
    ensures { result ≡ end_at n runs.now i }
{
    runs.get(i + 1).map_or(n, |next| words::offset(*next))
}

// The coordinate of the last run, or 0 where there is none. No `Option`: it is public, can't fail, and its definition says 0.
pub fn last_coordinate(runs: &[u64]) -> u64
    ensures { result ≡ last_coord runs.now }
{
    runs.last().map_or(0, |run| words::coordinate(*run))
}
