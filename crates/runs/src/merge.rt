// Equal neighbours merged: of neighbouring runs of one coordinate the first stays.
ghost use Rattle.std.specs.Prelude.{◌≡◌, ◌+◌, ◌<◌, ◌≤◌, length, get_or};
ghost use Rattle.base.specs.Answers.{of_written};
ghost use Rattle.base.specs.Parts.{over};
ghost use Rattle.runs.specs.Merge.{merge_into};
ghost use Rattle.runs.specs.Append.{shift};

use crate::oriented::{Oriented, Shifted};
use crate::{orders, words};
use base::Refusal;

impl Shifted<'_> {
    ghost use Rattle.runs.specs.Inside.Oriented.{list_of};
    ghost use Rattle.runs.specs.Inside.Merging.{FillsAll, FillsRest, merged_behind};

    // The first run.
    fn first(&self) -> u64
        requires { 0 < length self.now.list.runs.now }
        ensures { result ≡ shift self.now.shift (get_or (list_of self.now.list) 0 0) }
    {
        self.list.run_at(0) + u64::from(self.shift)
    }

    // Run i, which is not the first: from the other end it begins where the one before it ends.
    fn run_behind(&self, i: usize) -> u64
        requires { (0 < i) × (i < length self.now.list.runs.now) }
        ensures { result ≡ shift self.now.shift (get_or (list_of self.now.list) i 0) }
    {
        let Oriented { runs, n, reversed } = self.list;
        if reversed {
            let k = runs.len() - 1 - i;
            words::backed(runs[k], runs[k + 1], u64::from(n + self.shift))
        } else {
            runs[i] + u64::from(self.shift)
        }
    }

    // The runs behind the first one, behind the `used` runs of the output, which end on its coordinate; without those that have the
    // coordinate of the one before. `total` runs then. Each is put where the next new one will stand, so that one left out is written over:
    // without a branch, which would often be mispredicted.
    fn fill_merged_rest(&self, out: &mut [u64], used: usize, total: usize)
        requires { FillsRest self.now out.old used total }
        ensures { out.new ≡ over (merged_behind self.now used out.old) out.old }
    {
        let mut previous = out[used - 1];
        let mut end = used;
        let mut i = 1;
        while end < total {
            let run = self.run_behind(i);
            out[end] = run;
            end += usize::from(words::coordinate(run) != words::coordinate(previous));
            previous = run;
            i += 1;
        }
    }

    // The list behind the `used` runs of the output, without the runs that have the coordinate of the one before. `total` runs then. `drops`
    // tells whether the first one has that of the output's last.
    pub(crate) fn fill_merged(&self, out: &mut [u64], used: usize, drops: bool, total: usize)
        requires { FillsAll self.now out.old used drops total }
        ensures { out.new ≡ over (merged_behind self.now used out.old) out.old }
    {
        if drops {
            self.fill_merged_rest(out, used, total);
        } else {
            out[used] = self.first();
            self.fill_merged_rest(out, used + 1, total);
        }
    }
}

impl Oriented<'_> {
    ghost use Rattle.runs.specs.Inside.Oriented.{list_of};
    ghost use Rattle.runs.specs.Merge.{merge};

    // The list to the front of `out`, equal neighbours merged: `count` runs then. The first one stays, since it has none before it.
    fn fill_merged(&self, out: &mut [u64], count: usize)
        requires { (0 < length self.now.runs.now) × (count ≡ length (merge (list_of self.now))) × (count ≤ length out.old) }
        ensures { out.new ≡ over (merge (list_of self.now)) out.old }
    {
        out[0] = self.run_at(0);
        let list = Shifted {
            list: *self,
            shift: 0,
        };
        list.fill_merged_rest(out, 1, count);
    }
}

// The list, reversed first where wished, with equal neighbours merged, to the front of `out`.
pub fn merge_color_runs(
    runs: &[u64],
    n: u32,
    reversed: bool,
    out: &mut [u64],
) -> Result<usize, Refusal>
    ensures { (of_written result, out.new) ≡ merge_into runs.now n reversed out.old }
{
    if 16777215 < n {
        return Err(Refusal::Vertices);
    }
    let Some(count) = orders::merged_count(runs, n) else {
        return Err(Refusal::Runs);
    };
    if out.len() < count {
        return Err(Refusal::Space);
    }
    Oriented { runs, n, reversed }.fill_merged(out, count);
    Ok(count)
}
