// A cycle begun at another vertex, by run arithmetic: the cost grows with the runs, not with the vertices.
ghost use Rattle.std.specs.Prelude.{ℕ, ◌≡◌, ◌≤◌, List, length};
ghost use Rattle.base.specs.Answers.{of_written};
ghost use Rattle.base.specs.Parts.{over};
ghost use Rattle.runs.specs.Inside.Turned.{ahead};
ghost use Rattle.runs.specs.Inside.Yields.{YieldsAll, YieldsUpTo};
ghost use Rattle.runs.specs.Rotate.{rotate_runs, rotate_into};

use crate::orders;
use crate::oriented::Oriented;
use crate::turned::{Turn, Turned};
use base::Refusal;

// The runs of the list turned left by pivot mod n.
pub(crate) fn turned<'a>(list: Oriented<'a>, pivot: u32) -> Turned<'a>
    ensures { ahead result ≡ rotate_runs list.entry.n pivot list.entry.reversed list.entry.runs.now }
{
    let pivot = pivot.checked_rem(list.n).unwrap_or(0);
    Turned {
        turn: Turn { list, pivot },
        step: 0,
        colour: 0,
    }
}

// How many there are.
pub(crate) fn count(cycle: Turned) -> usize
    ensures { result ≡ length (ahead cycle.entry) }
{
    cycle.count()
}

// All that the iterator gives to the front of `out`. `YieldsUpTo` bounds it; it is a clause, since no struct holds the iterator.
fn fill<I: Iterator<Item = u64>>(runs: I, out: &mut [u64])
    requires { YieldsUpTo I.can_next I.next_gives I.remaining runs (length out.old) }
    ensures { (all : List ℕ) → YieldsAll I.next_gives runs all → out.new ≡ over all out.old }
{
    // `out` by index: no clause says what a slice holds after a `zip` over its `iter_mut`.
    for (i, run) in runs.enumerate() {
        out[i] = run;
    }
}

// The list, reversed first where wished, turned left by pivot mod n, to the front of `out`.
pub fn rotate_cycle_color_runs(
    runs: &[u64],
    n: u32,
    pivot: u32,
    reversed: bool,
    out: &mut [u64],
) -> Result<usize, Refusal>
    ensures { (of_written result, out.new) ≡ rotate_into runs.now n pivot reversed out.old }
{
    orders::check_steady(runs, n)?;
    let cycle = turned(Oriented { runs, n, reversed }, pivot);
    let count = count(cycle);
    if out.len() < count {
        return Err(Refusal::Space);
    }
    // So many and no more: asked once more, the iterator would go over the steps behind its last run.
    fill(cycle.take(count), out);
    Ok(count)
}
