// A list reversed in its own place, from both ends to the middle.
ghost use Rattle.std.specs.Prelude.{◌≡◌, ◌+◌, ◌<◌, length};
ghost use Rattle.runs.specs.Words.{offset};
ghost use Rattle.runs.specs.Inside.Lists.{Taken};
ghost use Rattle.runs.specs.Reverse.{reverse_runs};
ghost use Rattle.runs.specs.Inside.Swap.{Swapped, FourFit, four_back, put_four};

use crate::words;

// How far swapping is: `done` runs at each end are in place, and `behind` stood behind the run that comes next.
#[derive(Clone, Copy)]
pub(crate) struct Ends {
    pub done: usize,
    pub behind: u64,
}

// The four runs from place p on, last first, each begun where it ended from the other side; the last ended where `next` begins. Four are
// read and written together, which takes less time than one by one.
fn four_back(runs: &[u64], p: usize, next: u64, top: u64) -> [u64; 4]
    requires { FourFit top runs.now p next }
    ensures { result ≡ four_back top runs.now p next }
{
    let [a, b, c, d] = *runs[p..].first_chunk::<4>().unwrap();
    [
        words::backed(d, next, top),
        words::backed(c, d, top),
        words::backed(b, c, top),
        words::backed(a, b, top),
    ]
}

// Four runs from place p on. By index: by `copy_from_slice`, which proves, reverse in place takes a quarter to a third longer at 100,000
// runs and a tenth longer at 10,000,000, which misses its lines in docs/BENCHMARK.md.
fn put_four(runs: &mut [u64], p: usize, four: [u64; 4])
    requires { p + 3 < length runs.old }
    ensures { runs.new ≡ put_four runs.old p four }
{
    let [a, b, c, d] = four;
    runs[p] = a;
    runs[p + 1] = b;
    runs[p + 2] = c;
    runs[p + 3] = d;
}

// Four runs of each end change places as long as there are eight between.
fn swap_fours(runs: &mut [u64], n: u32) -> Ends
    requires { Taken n runs.old }
    ensures { Swapped n runs.old runs.new (offset result.behind) result.done }
{
    let m = runs.len();
    let rounds = m / 8;
    let top = u64::from(n);
    let mut behind = top;
    // By number: each turn reads and writes four runs at both ends of one slice.
    for round in 0..rounds {
        let i = 4 * round;
        let k = m - 4 - i;
        let next = runs[i + 4];
        let last = runs[k];
        let low = four_back(runs, i, next, top);
        let high = four_back(runs, k, behind, top);
        put_four(runs, i, high);
        put_four(runs, k, low);
        behind = last;
    }
    Ends {
        done: 4 * rounds,
        behind,
    }
}

// The list reversed: the runs left between one by one.
pub(crate) fn swap_ends(runs: &mut [u64], n: u32)
    requires { Taken n runs.old }
    ensures { runs.new ≡ reverse_runs n runs.old }
{
    let m = runs.len();
    let middle = m / 2;
    let top = u64::from(n);
    let ends = swap_fours(runs, n);
    let mut behind = ends.behind;
    // By index: each step reads and writes both ends of one slice.
    for i in ends.done..middle {
        let k = m - 1 - i;
        let a = runs[i];
        let b = runs[k];
        let next = runs[i + 1];
        runs[i] = words::backed(b, behind, top);
        runs[k] = words::backed(a, next, top);
        behind = b;
    }
    if middle + middle < m {
        runs[middle] = words::backed(runs[middle], behind, top);
    }
}
