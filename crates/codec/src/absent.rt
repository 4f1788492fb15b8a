// The ids absent from a dense set, listed before they are coded as distances.
// `as` below: no `From` leads between u32 and usize, and no number is cut by it, which is proved.
ghost use Rattle.std.specs.Prelude.{◌≡◌, ◌++◌, ◌+◌, ◌-◌, ◌≤◌, ◌^◌, length, take, true};
ghost use Rattle.base.specs.Parts.{over};
ghost use Rattle.codec.specs.Sets.{gap_bits, absent};
ghost use Rattle.codec.specs.Inside.Writers.{Ready, Wrote};
ghost use Rattle.codec.specs.Inside.Gaps.{coded_ids, numbers, Listed, AbsentIn};

use crate::bits::BitWriter;
use crate::colors::ColorSet;
use crate::gaps::{Absent, Cursor, Present};

// `fill_numbers` as a call of its own: its loop would stand in the one that lists ids as often as that is unrolled.
#[inline(never)]
fn list_many(from: u32, to: u32, room: &mut [u32], k: usize)
    requires { (from ≤ to) × (k + (to - from) ≤ length room.old) }
    ensures { room.new ≡ over (take k room.old ++ numbers from (to - from)) room.old }
{
    crate::gaps::fill_numbers(from, to, room, k);
}

// The numbers from `from` up to `to` to place `k` of `room` on. Four are put there in any case, so that up to four
// need no branch: one would often be mispredicted.
#[inline(always)]
fn list_numbers(from: u32, to: u32, room: &mut [u32], k: usize)
    requires places { (k + 4 ≤ length room.old) × (k + (to - from) ≤ length room.old) }
    requires numbers { (from ≤ to) × (from + 4 ≤ 2 ^ 32) }
    ensures { take (k + (to - from)) room.new ≡ take k room.old ++ numbers from (to - from) }
{
    room[k..k + 4].copy_from_slice(&[from, from + 1, from + 2, from + 3]);
    if 4 < to - from {
        list_many(from, to, room, k);
    }
}

// The ids absent from a set, up to its ids before place `end`, behind those listed: the number behind those ids.
#[inline(always)]
fn list_up_to(set: ColorSet, c: Cursor, end: usize, room: &mut [u32]) -> u32
    requires listed { Listed set.colors.n set.ids.now c room.old }
    requires places { (c.i ≤ end) × (end ≤ length set.ids.now) }
    requires space { set.colors.n + 4 ≤ length set.ids.now + length room.old }
    ensures { Listed set.entry.colors.n set.entry.ids.now (record { i = end; from = result }) room.new }
{
    let mut from = c.from;
    for i in c.i..end {
        let id = set.ids[i];
        list_numbers(from, id, room, from as usize - i);
        from = id + 1;
    }
    from
}

// The ids absent from a set to the front of `room`: eight present ids are passed at once, where they go up by one.
pub(crate) fn list_absent(set: ColorSet, room: &mut [u32])
    requires { set.colors.n + 4 ≤ length set.ids.now + length room.old }
    ensures { take (set.entry.colors.n - length set.entry.ids.now) room.new ≡ absent set.entry.colors.n set.entry.ids.now }
{
    let len = set.ids.len();
    let mut from: u32 = 0;
    for eight in 0..len / 8 {
        let i = 8 * eight;
        if set.ids[i + 7] == from + 7 {
            from += 8;
        } else {
            from = list_up_to(set, Cursor { i, from }, i + 8, room);
        }
    }
    let i = len / 8 * 8;
    from = list_up_to(set, Cursor { i, from }, len, room);
    list_many(from, set.colors.n, room, from as usize - len);
}

// How many bits the ids absent from a set take. They are in `list`, where there is one.
pub(crate) fn absent_len(set: ColorSet, list: Option<ColorSet>) -> usize
    requires { AbsentIn set.colors.n set.ids.now list }
    ensures { result ≡ length (gap_bits 0 (coded_ids true set.entry.colors.n set.entry.ids.now)) }
{
    match list {
        Some(absent) => crate::gaps::gaps_len::<Present>(absent),
        None => crate::gaps::gaps_len::<Absent>(set),
    }
}

// The ids absent from a set behind the bits of `w`. They are in `list`, where there is one.
pub(crate) fn write_absent(w: &mut BitWriter, set: ColorSet, list: Option<ColorSet>)
    requires listed { AbsentIn set.colors.n set.ids.now list }
    requires ready { Ready w.old (length (gap_bits 0 (coded_ids true set.colors.n set.ids.now))) }
    ensures same_reference { w.new.out.ghost_name ≡ w.old.out.ghost_name }
    ensures wrote { Wrote w.old w.new (gap_bits 0 (coded_ids true set.entry.colors.n set.entry.ids.now)) }
{
    match list {
        Some(absent) => crate::gaps::write_gaps::<Present>(w, absent),
        None => crate::gaps::write_gaps::<Absent>(w, set),
    }
}
