// A list of runs from either end of the unitig.
ghost use Rattle.std.specs.Prelude.{◌≡◌, ◌+◌, ◌<◌, ◌≤◌, [], ◌∷◌, length, drop, get_or};
ghost use Rattle.base.specs.Parts.{over};
ghost use Rattle.runs.specs.Colours.{end_at};
ghost use Rattle.runs.specs.Inside.Lists.{Taken};
ghost use Rattle.runs.specs.Reverse.{reverse_runs};
ghost use Rattle.runs.specs.Append.{shifted};

use crate::{orders, words};

// A list that is steady for n vertices, or that list reversed. The public functions have `runs`, `n` and `reversed` one by one: these are
// the parameters of the reference and of the C interface.
#[derive(Clone, Copy)]
pub(crate) struct Oriented<'a> {
    pub(crate) runs: &'a [u64],
    pub(crate) n: u32,
    pub(crate) reversed: bool,
    ghost taken: { Taken n runs.now },
}

impl Oriented<'_> {
    ghost use Rattle.runs.specs.Inside.Oriented.{list_of};

    // Run i.
    pub(crate) fn run_at(&self, i: usize) -> u64
        requires { i < length self.now.runs.now }
        ensures { result ≡ get_or (list_of self.now) i 0 }
    {
        if self.reversed {
            let k = self.runs.len() - 1 - i;
            words::flip(self.runs[k], self.n, orders::end_of(self.runs, self.n, k))
        } else {
            self.runs[i]
        }
    }

    // Where it ends.
    pub(crate) fn end_at(&self, i: usize) -> u32
        requires { i < length self.now.runs.now }
        ensures { result ≡ end_at self.now.n (list_of self.now) i }
    {
        if self.reversed {
            self.n - words::offset(self.runs[self.runs.len() - 1 - i])
        } else {
            orders::end_of(self.runs, self.n, i)
        }
    }
}

// A list that is to stand `shift` vertices further on.
#[derive(Clone, Copy)]
pub(crate) struct Shifted<'a> {
    pub(crate) list: Oriented<'a>,
    pub(crate) shift: u32,
    ghost few: { shift + list.n < 16777216 },
}

impl Shifted<'_> {
    ghost use Rattle.runs.specs.Inside.Oriented.{list_of};

    // All runs to the front of `out`.
    pub(crate) fn fill(&self, out: &mut [u64])
        requires { length self.now.list.runs.now ≤ length out.old }
        ensures { out.new ≡ over (shifted self.now.shift (list_of self.now.list)) out.old }
    {
        if self.list.runs.is_empty() {
            return;
        }
        let first = words::pack(self.shift, words::coordinate(self.list.run_at(0)));
        put_front(out, first);
        self.fill_rest(&mut out[1..]);
    }

    // The runs behind the first to the front of `out`. That they fit is a clause of this and the two below, as of `fill`: list and output
    // meet only in these calls, and a struct of both would owe the same fact at each.
    pub(crate) fn fill_rest(&self, out: &mut [u64])
        requires { length self.now.list.runs.now ≤ length out.old + 1 }
        ensures { out.new ≡ over (shifted self.now.shift (drop 1 (list_of self.now.list))) out.old }
    {
        if self.list.reversed {
            self.fill_backward(out);
        } else {
            self.fill_forward(out);
        }
    }

    // The same of a list that isn't reversed.
    fn fill_forward(&self, out: &mut [u64])
        requires { length self.now.list.runs.now ≤ length out.old + 1 }
        ensures { out.new ≡ over (shifted self.now.shift (drop 1 self.now.list.runs.now)) out.old }
    {
        let Some((_, rest)) = self.list.runs.split_first() else {
            return;
        };
        let shift = u64::from(self.shift);
        // `out` by index: by `enumerate` over its `iter_mut` the runs would go by index, and no clause says what it holds after a `zip`.
        for (i, run) in rest.iter().enumerate() {
            out[i] = *run + shift;
        }
    }

    // The same of a reversed list. A loop of its own: each run needs the one that it stood before, which `fill_forward` doesn't read.
    fn fill_backward(&self, out: &mut [u64])
        requires { length self.now.list.runs.now ≤ length out.old + 1 }
        ensures { out.new ≡ over (shifted self.now.shift (drop 1 (reverse_runs self.now.list.n self.now.list.runs.now))) out.old }
    {
        let runs = self.list.runs;
        let m = runs.len();
        let top = u64::from(self.list.n + self.shift);
        // By index, which both reads need too: `enumerate` over `iter_mut` is no plainer.
        for i in 0..m.saturating_sub(1) {
            out[i] = words::backed(runs[m - 2 - i], runs[m - 1 - i], top);
        }
    }
}

// A run in the front of `out`.
fn put_front(out: &mut [u64], w: u64)
    requires { 0 < length out.old }
    ensures { out.new ≡ over (w ∷ []) out.old }
{
    out[0] = w;
}
