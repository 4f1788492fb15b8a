// Runs from the other end of the unitig.
ghost use Rattle.std.specs.Prelude.{◌≡◌};
ghost use Rattle.base.specs.Answers.{of_written};
ghost use Rattle.runs.specs.Colours.{first_coord};
ghost use Rattle.runs.specs.Reverse.{oriented, orient_into, reverse_into, reverse_in_place};

use crate::oriented::{Oriented, Shifted};
use crate::{orders, swap, words};
use base::Refusal;

// The coordinate of the first run of the oriented list, or 0 where there is none. No `Option`: it is public, can't fail, and its
// definition says 0.
#[tactic(auto, using(crate::proofs::Laws::Reverse::first_yes, crate::proofs::Laws::Reverse::first_no))]
pub fn first_coordinate(runs: &[u64], n: u32, reversed: bool) -> u64
    ensures { result ≡ first_coord (oriented reversed n runs.now) }
{
    if reversed {
        orders::last_coordinate(runs)
    } else {
        runs.first().map_or(0, |run| words::coordinate(*run))
    }
}

// The list, reversed where wished, to the front of `out`.
pub fn orient_color_runs(
    runs: &[u64],
    n: u32,
    reversed: bool,
    out: &mut [u64],
) -> Result<usize, Refusal>
    ensures { (of_written result, out.new) ≡ orient_into runs.now n reversed out.old }
{
    orders::check_steady(runs, n)?;
    if out.len() < runs.len() {
        return Err(Refusal::Space);
    }
    let list = Oriented { runs, n, reversed };
    Shifted { list, shift: 0 }.fill(out);
    Ok(list.runs.len())
}

// The reversed list to the front of `out`.
pub fn reverse_color_runs(runs: &[u64], n: u32, out: &mut [u64]) -> Result<usize, Refusal>
    ensures { (of_written result, out.new) ≡ reverse_into runs.now n out.old }
{
    orient_color_runs(runs, n, true, out)
}

// Reverse a list in its own place.
pub fn reverse_color_runs_in_place(runs: &mut [u64], n: u32) -> Result<usize, Refusal>
    ensures { (of_written result, runs.new) ≡ reverse_in_place runs.old n }
{
    orders::check_steady(runs, n)?;
    swap::swap_ends(runs, n);
    Ok(runs.len())
}
