// Ids as the distances between them. A sparse set codes its own ids so, a dense set those absent.
// `as` below: no `From` leads between u32 and usize, and no number is cut by it, which is proved.
ghost use Rattle.std.specs.Prelude.{◌≡◌, ◌++◌, ◌+◌, ◌-◌, ◌*◌, ◌<◌, ◌≤◌, ◌^◌, length, take, drop, set, Bool, true, false};
ghost use Rattle.base.specs.Parts.{over};
ghost use Rattle.codec.specs.Bits.{bits_of};
ghost use Rattle.codec.specs.Codes.{delta};
ghost use Rattle.codec.specs.Sets.{Within, gap_bits, read_gaps, absent};
ghost use Rattle.codec.specs.Inside.Writers.{Ready, Wrote};
ghost use Rattle.codec.specs.Inside.Gaps.{coded_ids, numbers, Ahead, up_in, Skipped, Gave, GaveEight, bits_from, CountedFrom, WroteFrom, BitsAt, is_given, Put, Kept, ids_in};
ghost use Rattle.codec.specs.Inside.Bitmaps.{Front};
ghost use Rattle.codec.specs.Inside.Bodies.{gaps_in, IdsAt};

use crate::bits::BitWriter;
use crate::body::Body;
use crate::codes::ReadCode;
use crate::colors::ColorSet;
use crate::copies::copy_front;
use crate::source::Source;

// A place in the ids to code: `i` ids of the set are passed, and the next coded id is `from` or more. The set stays
// beside it: with the set inside, `next_id` and `skip_present` would not ask for `Ahead`, but `Gave` and each loop would
// have to say that the next place is one in the same set. `map_chunk` asks for it of a place that is no cursor.
#[derive(Clone, Copy)]
pub(crate) struct Cursor {
    pub(crate) i: usize,
    pub(crate) from: u32,
}

// An id to code, and the place behind it.
#[derive(Clone, Copy)]
pub(crate) struct NextId {
    pub(crate) id: u32,
    pub(crate) next: Cursor,
}

// The ids that a set codes as distances.
pub(crate) trait CodedIds {
    // Whether they are those absent from the set.
    ghost dense: { Bool };

    // The next id to code, if there is one.
    fn next_id(set: ColorSet, c: Cursor) -> Option<NextId>
        requires { Ahead set.colors.n set.ids.now c }
        ensures { Gave dense set.entry.colors.n set.entry.ids.now c result };

    // The place behind the next eight ids to code, where they are seen to go up by one from the cursor's number.
    fn next_eight(set: ColorSet, c: Cursor) -> Option<Cursor>
        requires { Ahead set.colors.n set.ids.now c }
        ensures { GaveEight dense set.entry.colors.n set.entry.ids.now c result };
}

// A sparse set codes its own ids.
pub(crate) struct Present;

// A dense set codes those absent from it.
pub(crate) struct Absent;

// How many of the eight ids from place `i` on go up by one from `from`: as they ascend, the first ones.
// There is no early way out, so that several ids are compared at a time.
fn count_up(ids: &[u32], i: usize, from: u32) -> usize
    requires { (i + 8 ≤ length ids.now) × (from + 8 ≤ 2 ^ 32) }
    ensures { (result ≡ up_in ids.now i from 8) × (result ≤ 8) }
{
    let mut count: u32 = 0;
    for (j, &id) in (0..8).zip(&ids[i..i + 8]) {
        count += u32::from(id == from + j);
    }
    count as usize
}

// How many ids from the cursor on go up by one from its number, one at a time: `low` do.
fn skip_last(set: ColorSet, c: Cursor, low: usize) -> usize
    requires { Skipped set.colors.n set.ids.now c.i c.from low }
    ensures { Skipped set.entry.colors.n set.entry.ids.now c.i c.from result × Within (c.from + result + 1) set.entry.colors.n (drop (c.i + result) set.entry.ids.now) }
{
    let left = set.ids.len() - c.i;
    for (k, &id) in (low..left).zip(&set.ids[c.i + low..]) {
        if id as usize != c.from as usize + k {
            return k;
        }
    }
    left
}

// How many ids from the cursor on go up by one from its number, eight at a time: as they ascend, the last
// of eight tells. Each loop over absent ids holds this code itself, as a call of its own slows it.
#[inline(always)]
fn skip_present(set: ColorSet, c: Cursor) -> usize
    requires { Ahead set.colors.n set.ids.now c }
    ensures { Skipped set.entry.colors.n set.entry.ids.now c.i c.from result × Within (c.from + result + 1) set.entry.colors.n (drop (c.i + result) set.entry.ids.now) }
{
    let left = set.ids.len() - c.i;
    // Eights by number: over `as_chunks` this takes 1 to 3% longer.
    for eight in 0..left / 8 {
        let k = 8 * eight;
        if set.ids[c.i + k + 7] as usize != c.from as usize + k + 7 {
            return k + count_up(set.ids, c.i + k, c.from + k as u32);
        }
    }
    skip_last(set, c, left / 8 * 8)
}

impl CodedIds for Present {
    ghost dense = { false };

    // In each loop over coded ids, as is `skip_present`: a call of its own slows them.
    #[inline(always)]
    fn next_id(set: ColorSet, c: Cursor) -> Option<NextId> {
        if set.ids.len() <= c.i {
            return None;
        }
        let id = set.ids[c.i];
        Some(NextId {
            id,
            next: Cursor {
                i: c.i + 1,
                from: id + 1,
            },
        })
    }

    // As the ids ascend, the last of eight tells.
    #[inline(always)]
    fn next_eight(set: ColorSet, c: Cursor) -> Option<Cursor> {
        let i = c.i + 8;
        if set.ids.len() < i || set.ids[c.i + 7] as usize != c.from as usize + 7 {
            return None;
        }
        Some(Cursor {
            i,
            from: c.from + 8,
        })
    }
}

impl CodedIds for Absent {
    ghost dense = { true };

    // As of `Present`.
    #[inline(always)]
    fn next_id(set: ColorSet, c: Cursor) -> Option<NextId> {
        let k = skip_present(set, c);
        let id = c.from + k as u32;
        if set.colors.n <= id {
            return None;
        }
        Some(NextId {
            id,
            next: Cursor {
                i: c.i + k,
                from: id + 1,
            },
        })
    }

    // As the ids ascend, the next one tells, or the colour count.
    #[inline(always)]
    fn next_eight(set: ColorSet, c: Cursor) -> Option<Cursor> {
        let next = if c.i < set.ids.len() {
            set.ids[c.i]
        } else {
            set.colors.n
        };
        if next - c.from < 8 {
            return None;
        }
        Some(Cursor {
            i: c.i,
            from: c.from + 8,
        })
    }
}

// So many bits, and the place behind the ids that they code.
#[derive(Clone, Copy)]
pub(crate) struct NextBits {
    pub(crate) count: usize,
    pub(crate) next: Cursor,
}

// How many bits the next coded ids take: eight that go up by one, each of which has a code of a single one, or two, or the
// last. None where there are none.
#[inline(always)]
fn next_bits<C: CodedIds>(set: ColorSet, c: Cursor) -> Option<NextBits>
    requires { Ahead set.colors.n set.ids.now c }
    ensures { CountedFrom C.dense set.entry.colors.n set.entry.ids.now c result }
{
    if let Some(next) = C::next_eight(set, c) {
        return Some(NextBits { count: 8, next });
    }
    let first = C::next_id(set, c)?;
    let count = crate::codes::delta_len(first.id - c.from);
    let Some(second) = C::next_id(set, first.next) else {
        // The end, so that what stands behind the last id isn't gone over once more.
        return Some(NextBits {
            count,
            next: Cursor {
                i: set.ids.len(),
                from: set.colors.n,
            },
        });
    };
    Some(NextBits {
        count: count + crate::codes::delta_len(second.id - first.next.from),
        next: second.next,
    })
}

// How many bits the coded ids of a set take.
pub(crate) fn gaps_len<C: CodedIds>(set: ColorSet) -> usize
    ensures { result ≡ length (gap_bits 0 (coded_ids C.dense set.entry.colors.n set.entry.ids.now)) }
{
    let mut bits: usize = 0;
    let mut c = Cursor { i: 0, from: 0 };
    while let Some(NextBits { count, next }) = next_bits::<C>(set, c) {
        bits += count;
        c = next;
    }
    bits
}

// Two codes behind the bits of `w`: those of v and of u.
#[inline(always)]
fn write_two(w: &mut BitWriter, v: u32, u: u32)
    requires { (v + u + 2 ≤ 2 ^ 20) × Ready w.old (length (delta v) + length (delta u)) }
    ensures same_reference { w.new.out.ghost_name ≡ w.old.out.ghost_name }
    ensures wrote { Wrote w.old w.new (delta v ++ delta u) }
{
    let both = crate::codes::delta_word(v).then(crate::codes::delta_word(u));
    w.push(both.value, both.count);
}

// The next coded ids behind the bits of `w`: eight that go up by one, each of which has a code of a single one, or two. The
// place behind them, or none where they were the last.
#[inline(always)]
fn write_next<C: CodedIds>(w: &mut BitWriter, set: ColorSet, c: Cursor) -> Option<Cursor>
    requires { Ahead set.colors.n set.ids.now c × Ready w.old (length (bits_from C.dense set.colors.n set.ids.now c)) }
    ensures same_reference { w.new.out.ghost_name ≡ w.old.out.ghost_name }
    ensures wrote { WroteFrom C.dense set.entry.colors.n set.entry.ids.now w.old w.new c result }
{
    if let Some(next) = C::next_eight(set, c) {
        w.push(255, 8);
        return Some(next);
    }
    let first = C::next_id(set, c)?;
    let Some(second) = C::next_id(set, first.next) else {
        crate::codes::write_delta(w, first.id - c.from);
        return None;
    };
    write_two(w, first.id - c.from, second.id - first.next.from);
    Some(second.next)
}

// The coded ids of a set behind the bits of `w`.
pub(crate) fn write_gaps<C: CodedIds>(w: &mut BitWriter, set: ColorSet)
    requires { Ready w.old (length (gap_bits 0 (coded_ids C.dense set.colors.n set.ids.now))) }
    ensures same_reference { w.new.out.ghost_name ≡ w.old.out.ghost_name }
    ensures wrote { Wrote w.old w.new (gap_bits 0 (coded_ids C.dense set.entry.colors.n set.entry.ids.now)) }
{
    let mut c = Cursor { i: 0, from: 0 };
    while let Some(next) = write_next::<C>(w, set, c) {
        c = next;
    }
}

// The place behind the coded ids of a set, where they stand at bit place `at`.
pub(crate) fn same_gaps<C: CodedIds>(source: Source, at: usize, set: ColorSet) -> Option<usize>
    requires { at ≤ 8 * length source.bytes.now }
    ensures { BitsAt (gap_bits 0 (coded_ids C.dense set.entry.colors.n set.entry.ids.now)) source.entry.bytes.now at result }
{
    let mut place = at;
    let mut c = Cursor { i: 0, from: 0 };
    while let Some(NextId { id, next }) = C::next_id(set, c) {
        let ReadCode {
            value,
            next: behind,
        } = source.next_delta(place)?;
        if value != id - c.from {
            return None;
        }
        place = behind;
        c = next;
    }
    Some(place)
}

// The numbers from `from` up to `to` to place `k` of `out` on: the place behind them. The number is counted beside
// the places: over `enumerate` dense sets with one id in ten or in a hundred absent are read 6 to 8% slower.
pub(crate) fn fill_numbers(from: u32, to: u32, out: &mut [u32], k: usize) -> usize
    requires { (from ≤ to) × (k + (to - from) ≤ length out.old) }
    ensures { (result ≡ k + (to - from)) × (out.new ≡ over (take k out.old ++ numbers from (to - from)) out.old) }
{
    let end = k + (to - from) as usize;
    let mut id = from;
    for place in out[k..end].iter_mut() {
        *place = id;
        id += 1;
    }
    end
}

// The numbers from `from` up to `to` to place `k` of `out` on, where they don't pass place `count`: the place behind them. Up to
// eight are put as eight, where these don't pass it either, since later ones are put over them: so their count is no branch.
fn fill_gap(from: u32, to: u32, count: usize, out: &mut [u32], k: usize) -> usize
    requires numbers { (from ≤ to) × (from + 8 < 2 ^ 32) }
    requires places { (k + (to - from) ≤ count) × (count ≤ length out.old) }
    ensures { (result ≡ k + (to - from)) × Front (take k out.old ++ numbers from (to - from)) count out.old out.new }
{
    if count < k + 8 || 8 < to - from {
        return fill_numbers(from, to, out, k);
    }
    fill_numbers(from, from + 8, out, k);
    k + (to - from) as usize
}

// The ids below `top` but for `others`, to the front of `out`.
fn fill_outside(others: &[u32], top: u32, out: &mut [u32])
    requires { Within 0 top others.now × (top ≤ length others.now + length out.old) × (top ≤ 2 ^ 20) }
    ensures { out.new ≡ over (absent top others.now) out.old }
{
    let count = top as usize - others.len();
    let mut from: u32 = 0;
    let mut k: usize = 0;
    for &id in others {
        k = fill_gap(from, id, count, out, k);
        from = id + 1;
    }
    fill_numbers(from, top, out, k);
}

// Ids coded as distances that were read once, and are all there. They stand in the front of `room`, where it has
// space for them.
#[derive(Clone, Copy)]
pub(crate) struct Checked<'a> {
    pub(crate) body: Body<'a>,
    pub(crate) room: &'a [u32],
    ghost accepted: { is_given (gaps_in body) ≡ true },
    ghost kept: { Kept (gaps_in body) body.count room.now },
}

impl Checked<'_> {
    // The ids to the front of `out`: from `room`, where all of them were kept, else by reading them again.
    pub(crate) fn fill(self, out: &mut [u32])
        requires { self.body.count ≤ length out.old }
        ensures { out.new ≡ over (ids_in (gaps_in self.entry.body)) out.old }
    {
        let count = self.body.count;
        if count <= self.room.len() {
            copy_front(self.room, &mut out[..count]);
            return;
        }
        self.body.read_gaps(out);
    }

    // The ids left out between them to the front of `out`: by `room`, where all of them were kept, else by
    // reading them again.
    pub(crate) fn fill_left_out(self, out: &mut [u32])
        requires { self.body.colors.n ≤ self.body.count + length out.old }
        ensures { out.new ≡ over (absent self.entry.body.colors.n (ids_in (gaps_in self.entry.body))) out.old }
    {
        let count = self.body.count;
        if count <= self.room.len() {
            fill_outside(&self.room[..count], self.body.colors.n, out);
            return;
        }
        self.fill_uncoded(out);
    }

    // The same, by reading the coded ids.
    fn fill_uncoded(self, out: &mut [u32])
        requires { self.body.colors.n ≤ self.body.count + length out.old }
        ensures { out.new ≡ over (absent self.entry.body.colors.n (ids_in (gaps_in self.entry.body))) out.old }
    {
        let mut place = self.body.at;
        let mut from: u32 = 0;
        let mut k: usize = 0;
        for _ in 0..self.body.count {
            let Some(ReadCode { value, next }) = self.body.source.next_delta(place) else {
                return;
            };
            let id = from + value;
            k = fill_numbers(from, id, out, k);
            from = id + 1;
            place = next;
        }
        fill_numbers(from, self.body.colors.n, out, k);
    }
}
