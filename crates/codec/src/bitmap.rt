// A set as one bit for each id below the colour count, in chunks of at most 64 bits.
// `as` below: no `From` leads between u32 and usize, and no number is cut by it, which is proved.
ghost use Rattle.std.specs.Prelude.{◌≡◌, ◌++◌, ◌+◌, ◌-◌, ◌*◌, ◌<◌, ◌≤◌, ◌^◌, min, length, get_or, take, drop};
ghost use Rattle.base.specs.Parts.{over};
ghost use Rattle.codec.specs.Bits.{low_bits, bits_of};
ghost use Rattle.codec.specs.Sets.{map_bits, ids_of};
ghost use Rattle.codec.specs.Inside.Writers.{Ready, Wrote};
ghost use Rattle.codec.specs.Inside.Gaps.{Ahead, BitsAt};
ghost use Rattle.codec.specs.Inside.Bitmaps.{MapOf, Front};
ghost use Rattle.codec.specs.Inside.Bodies.{map_in};

use crate::bits::BitWriter;
use crate::body::Body;
use crate::colors::ColorSet;
use crate::source::Source;

// A chunk of the bitmap, and how many ids of the set are passed behind it.
#[derive(Clone, Copy)]
pub(crate) struct MapChunk {
    pub(crate) word: u64,
    pub(crate) next: usize,
}

// The bits for the `width` ids from `base` on, of which place `i` of the set is the first.
pub(crate) fn map_chunk(set: ColorSet, i: usize, base: u32, width: u32) -> MapChunk
    requires { Ahead set.colors.n set.ids.now (record { i = i; from = base }) × (width ≤ 64) × (base + width ≤ set.colors.n) }
    ensures { MapOf set.entry.colors.n set.entry.ids.now i base width result }
{
    let mut word: u64 = 0;
    for (k, &id) in set.ids[i..].iter().enumerate() {
        if base + width <= id {
            return MapChunk { word, next: i + k };
        }
        word |= 1u64 << (id - base);
    }
    MapChunk {
        word,
        next: set.ids.len(),
    }
}

// How many bits the chunk from `base` on has, where it is to have `most`.
pub(crate) fn chunk_width(base: u32, n: u32, most: u32) -> u32
    requires { (base < n) × (0 < most) }
    ensures { (result ≡ min most (n - base)) × (result ≤ most) × (base + result ≤ n) × (0 < result) }
{
    (n - base).min(most)
}

// The low `width` bits of `word` behind the bits of `w`, in two halves, since `push` takes 56 bits at most.
fn push_word(w: &mut BitWriter, word: u64, width: u32)
    requires ready { Ready w.old width }
    requires word_bound { (word < 2 ^ width) × (width ≤ 64) }
    ensures same_reference { w.new.out.ghost_name ≡ w.old.out.ghost_name }
    ensures wrote { Wrote w.old w.new (low_bits width word) }
{
    let low = width.min(32);
    w.push(word % (1u64 << low), low);
    w.push(word >> low, width - low);
}

// The bitmap behind the bits of `w`. Its chunks come by three lines, here and in `same_map`: an iterator of them would
// be a struct of the set, `i` and `base` with its `next`, and a definition and laws of all its words together, which is
// no plainer for two loops.
pub(crate) fn write_map(w: &mut BitWriter, set: ColorSet)
    requires { Ready w.old set.colors.n }
    ensures same_reference { w.new.out.ghost_name ≡ w.old.out.ghost_name }
    ensures wrote { Wrote w.old w.new (map_bits 0 set.entry.colors.n set.entry.ids.now) }
{
    let mut i: usize = 0;
    for base in (0..set.colors.n).step_by(64) {
        let width = chunk_width(base, set.colors.n, 64);
        let c = map_chunk(set, i, base, width);
        push_word(w, c.word, width);
        i = c.next;
    }
}

// The place behind the bitmap, where it stands at bit place `at`.
pub(crate) fn same_map(source: Source, at: usize, set: ColorSet) -> Option<usize>
    requires { at ≤ 8 * length source.bytes.now }
    ensures { BitsAt (map_bits 0 set.entry.colors.n set.entry.ids.now) source.entry.bytes.now at result }
{
    if source.bytes.len() * 8 - at < set.colors.n as usize {
        return None;
    }
    let mut i: usize = 0;
    for base in (0..set.colors.n).step_by(32) {
        let width = chunk_width(base, set.colors.n, 32);
        let c = map_chunk(set, i, base, width);
        if crate::bits::bits_at(source.bytes, at + base as usize, width as usize) != c.word {
            return None;
        }
        i = c.next;
    }
    Some(at + set.colors.n as usize)
}

// The places of the ones among four bits, lowest first, and then zeros: four numbers for each value of the bits.
static PLACES: [u32; 64] = [
    0, 0, 0, 0, 0, 0, 0, 0, 1, 0, 0, 0, 0, 1, 0, 0, 2, 0, 0, 0, 0, 2, 0, 0, 1, 2, 0, 0, 0, 1, 2, 0,
    3, 0, 0, 0, 0, 3, 0, 0, 1, 3, 0, 0, 0, 1, 3, 0, 2, 3, 0, 0, 0, 2, 3, 0, 1, 2, 3, 0, 0, 1, 2, 3,
];

// How many ones are among four bits.
static ONES: [u8; 16] = [0, 1, 1, 2, 1, 2, 2, 3, 1, 2, 2, 3, 2, 3, 3, 4];

// Place `j` of the ones among four bits, or 0.
fn place_in(four: u64, j: usize) -> u32
    requires { (four < 16) × (j < 4) }
    ensures { (result ≡ get_or (ids_of 0 (low_bits 4 four)) j 0) × (result < 4) }
{
    PLACES[4 * four as usize + j]
}

// The ids that four bits tell, from `base` on, to place `k` of `out` on: the place behind them. So many places are
// written whatever the bits are: nothing branches on a bit, and the next ids are written over what is too much.
fn fill_row(four: u64, base: u32, places: usize, out: &mut [u32], k: usize) -> usize
    requires bounds { (four < 16) × (base + 4 < 2 ^ 32) × (places ≤ 4) × (k + places ≤ length out.old) }
    requires space { length (ids_of base (low_bits 4 four)) ≤ places }
    ensures told { result ≡ k + length (ids_of base (low_bits 4 four)) }
    ensures filled { Front (take k out.old ++ ids_of base (low_bits 4 four)) (k + places) out.old out.new }
{
    for j in 0..places {
        out[k + j] = base + place_in(four, j);
    }
    k + ONES[four as usize] as usize
}

// The ids that the 32 bits of `word` tell, where 32 places are left.
fn fill_rows(word: u64, base: u32, out: &mut [u32], k: usize) -> usize
    requires { (base + 32 < 2 ^ 32) × (k + 32 ≤ length out.old) }
    ensures told { result ≡ k + length (ids_of base (low_bits 32 word)) }
    ensures filled { Front (take k out.old ++ ids_of base (low_bits 32 word)) (k + 32) out.old out.new }
{
    let mut at = k;
    for j in 0..8u32 {
        at = fill_row((word >> (4 * j)) % 16, base + 4 * j, 4, out, at);
    }
    at
}

// The ids that the 32 bits of `word` tell, where places are left up to `count`.
fn fill_chunk(word: u64, base: u32, count: usize, out: &mut [u32], k: usize) -> usize
    requires bounds { (base + 32 < 2 ^ 32) × (count ≤ length out.old) }
    requires space { k + length (ids_of base (low_bits 32 word)) ≤ count }
    ensures told { result ≡ k + length (ids_of base (low_bits 32 word)) }
    ensures filled { Front (take k out.old ++ ids_of base (low_bits 32 word)) count out.old out.new }
{
    if k + 32 <= count {
        return fill_rows(word, base, out, k);
    }
    let mut at = k;
    for j in 0..8u32 {
        let four = (word >> (4 * j)) % 16;
        at = if at + 4 <= count {
            fill_row(four, base + 4 * j, 4, out, at)
        } else {
            fill_row(four, base + 4 * j, count - at, out, at)
        };
    }
    at
}

// How many ones the `n` bits from `at` on have. Their chunks come by three lines, here and in `fill_map`: an iterator of
// them would be a struct of the bytes and `base` with its `next`, and a definition and laws of all its words together,
// which is no plainer for two loops.
fn ones_in(bytes: &[u8], at: usize, n: u32) -> usize
    requires { (length bytes.now < 2 ^ 60) × (at + n ≤ 8 * length bytes.now) }
    ensures { (result ≡ length (ids_of 0 (take n (drop at (bits_of bytes.now))))) × (result ≤ n) }
{
    let mut count: usize = 0;
    for base in (0..n).step_by(32) {
        let width = chunk_width(base, n, 32) as usize;
        let word = crate::bits::bits_at(bytes, at + base as usize, width);
        count += word.count_ones() as usize;
    }
    count
}

// The same for `words` times 64 bits from byte `k` on.
fn ones_in_words(bytes: &[u8], k: usize, words: usize) -> usize
    requires { (length bytes.now < 2 ^ 60) × (k + 8 * words ≤ length bytes.now) }
    ensures { (result ≡ length (ids_of 0 (take (64 * words) (drop (8 * k) (bits_of bytes.now))))) × (result ≤ 64 * words) }
{
    let mut count: usize = 0;
    for j in 0..words {
        count += crate::bits::word_at(bytes, k + 8 * j).count_ones() as usize;
    }
    count
}

impl Body<'_> {
    // How many ids a bitmap tells: the bits up to a whole byte, whole words, and what is left.
    pub(crate) fn count_map(self) -> usize
        requires { self.at + self.colors.n ≤ 8 * length self.source.bytes.now }
        ensures { (result ≡ length (ids_of 0 (map_in self.entry))) × (result ≤ self.entry.colors.n) }
    {
        let n = self.colors.n;
        let bytes = self.source.bytes;
        if n < 128 {
            return ones_in(bytes, self.at, n);
        }
        let head = 8 - self.at % 8;
        let words = (n as usize - head) / 64;
        let behind = head + 64 * words;
        let whole = ones_in_words(bytes, (self.at + head) / 8, words);
        ones_in(bytes, self.at, head as u32)
            + whole
            + ones_in(bytes, self.at + behind, n - behind as u32)
    }

    // The ids that a bitmap tells, to the front of `out`.
    pub(crate) fn fill_map(self, out: &mut [u32])
        requires place { self.at + self.colors.n ≤ 8 * length self.source.bytes.now }
        requires counted { length (ids_of 0 (map_in self)) ≡ self.count }
        requires space { self.count ≤ length out.old }
        ensures { out.new ≡ over (ids_of 0 (map_in self.entry)) out.old }
    {
        let n = self.colors.n;
        let mut k: usize = 0;
        for base in (0..n).step_by(32) {
            let width = chunk_width(base, n, 32) as usize;
            let word = crate::bits::bits_at(self.source.bytes, self.at + base as usize, width);
            k = fill_chunk(word, base, self.count, out, k);
        }
    }
}
