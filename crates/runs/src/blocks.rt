// Runs that stand as bytes, eight a run, low first.
ghost use Rattle.std.specs.Prelude.{◌≡◌, ◌+◌, ◌*◌, ◌<◌, ◌≤◌, length};

use crate::listed::Runs;
use crate::words;
use base::Refusal;
use codec::prefix::Prefix;

// The `count` runs of the bytes from `at` on.
#[derive(Clone, Copy)]
pub(crate) struct Blocks<'a> {
    pub(crate) bytes: &'a [u8],
    pub(crate) at: usize,
    pub(crate) count: usize,
    ghost whole: { at + 8 * count ≤ length bytes.now },
    ghost few: { count < 4294967296 },
}

impl<'a> Blocks<'a> {
    ghost use Rattle.base.specs.Parts.{over};
    ghost use Rattle.runs.specs.Colours.{colour_at};
    ghost use Rattle.runs.specs.Inside.Blocks.{runs_of, IsRead};
    ghost use Rattle.runs.specs.Inside.Lists.{IsSharpBeyond};

    // The list at the front of the bytes. Refusals: 4 or 5 of its count, then 4 where the runs end too early.
    pub(crate) fn read(bytes: &'a [u8]) -> Result<Blocks<'a>, Refusal>
        ensures { IsRead bytes.now result }
    {
        let Prefix { value, len } = codec::prefix::read_varint_len(bytes)?;
        let count = value as usize; // `as`, since no `From` leads from u32 to usize
        if bytes.len() - len < 8 * count {
            return Err(Refusal::Cut);
        }
        Ok(Blocks {
            bytes,
            at: len,
            count,
        })
    }

    // All of them to the front of `out`.
    #[tactic(auto, using(crate::proofs::Laws::Bytes::length_words, crate::proofs::Laws::Lists::fill_end))]
    pub(crate) fn fill(&self, out: &mut [u64])
        requires { self.now.count ≤ length out.old }
        ensures { out.new ≡ over (runs_of self.now) out.old }
    {
        // By index, which `run_at` needs too: `enumerate` over `iter_mut` is no plainer.
        for i in 0..self.count {
            out[i] = self.run_at(i);
        }
    }

    // The coordinate of a vertex by them: they are sharp for more vertices, so that the last run that begins at or before it is found in
    // halves. Run `low` is known to begin so; run `high`, if there is one, is not. `partition_point` is a method of slices, and these are bytes.
    #[tactic(auto, using(crate::proofs::Laws::Bytes::length_words))]
    pub(crate) fn color_at(&self, vertex: u32) -> u64
        requires { IsSharpBeyond vertex (runs_of self.now) }
        ensures { result ≡ colour_at vertex (runs_of self.now) }
    {
        let mut low = 0;
        let mut high = self.count;
        while low + 1 < high {
            let middle = (low + high) / 2;
            if words::offset(self.run_at(middle)) <= vertex {
                low = middle;
            } else {
                high = middle;
            }
        }
        words::coordinate(self.run_at(low))
    }
}

impl Runs for Blocks<'_> {
    ghost use Rattle.runs.specs.Inside.Blocks.{runs_of};

    ghost list = { runs_of };

    #[tactic(auto, using(crate::proofs::Laws::Bytes::length_words))]
    fn count(&self) -> usize {
        self.count
    }

    #[tactic(auto, using(crate::proofs::Laws::Bytes::length_words))]
    fn run_at(&self, i: usize) -> u64 {
        let b = self.bytes;
        let p = self.at + 8 * i;
        // Each byte by its place, which is one read of eight in the machine code. `first_chunk` would leave a test there, since its
        // `unwrap` has one, which slows a list of few runs.
        u64::from_le_bytes([
            b[p],
            b[p + 1],
            b[p + 2],
            b[p + 3],
            b[p + 4],
            b[p + 5],
            b[p + 6],
            b[p + 7],
        ])
    }
}
