// Ids coded as distances, read: up to three codes of one window a turn, or a run of ids that go up by one.
// `as` below: no `From` leads from u32 to usize or back, and no number is cut by it, which is proved.
ghost use Rattle.std.specs.Prelude.{◌≡◌, ◌++◌, ◌+◌, ◌-◌, ◌*◌, ◌/◌, ◌%◌, ◌<◌, ◌≤◌, ◌^◌, Some, IfSome, length, take, set, List, ℕ};
ghost use Rattle.base.specs.Parts.{over};
ghost use Rattle.codec.specs.Codes.{read_delta};
ghost use Rattle.codec.specs.Sets.{read_gaps};
ghost use Rattle.codec.specs.Inside.Places.{ReadCodeAt};
ghost use Rattle.codec.specs.Inside.Windows.{Shown};
ghost use Rattle.codec.specs.Inside.Gaps.{numbers, Put};
ghost use Rattle.codec.specs.Inside.Bodies.{gaps_in, IdsAt};
ghost use Rattle.codec.specs.Inside.GapReader.{Within, SeenAt, ReadOn, ReadSeen};

use crate::body::Body;
use crate::codes::{Coded, ReadCode};

// So far ids are read: how many, the least that the next one can be, and the bit place of its code.
#[derive(Clone, Copy)]
pub(crate) struct Reached {
    pub(crate) i: usize,
    pub(crate) from: u32,
    pub(crate) place: usize,
}

// A place that is reached, and a number that shows so many of the bits from there on.
#[derive(Clone, Copy)]
pub(crate) struct Seen {
    pub(crate) reached: Reached,
    pub(crate) word: u64,
    pub(crate) many: usize,
}

// An id to place `i` of `room`, where that is inside. A slice's `get_mut` promises nothing of the elements
// afterwards, so the place is tested by hand.
fn put_id(room: &mut [u32], i: usize, id: u32)
    ensures { room.new ≡ set room.old i id }
{
    if i < room.len() {
        room[i] = id;
    }
}

// The `k` numbers from `from` on to place `i` of `room` on, as many as are inside.
fn put_numbers(room: &mut [u32], i: usize, from: u32, k: usize)
    requires { from + k < 2 ^ 32 }
    ensures { room.new ≡ over (take i room.old ++ take (length room.old - i) (numbers from k)) room.old }
{
    let space = room.len().saturating_sub(i);
    if 0 < space {
        let fits = k.min(space);
        crate::gaps::fill_numbers(from, from + fits as u32, room, i);
    }
}

impl Body<'_> {
    // Behind a code that stands at the place: its id is put, unless it is too large.
    #[inline(always)]
    fn put_code(self, r: Reached, code: ReadCode, room: &mut [u32]) -> Option<Reached>
        requires within { Within self r × (r.i < self.count) }
        requires code { ReadCodeAt read_delta self.source.bytes.now r.place (Some code) }
        ensures on { ReadOn 1 self.entry r room.old room.new result }
        ensures behind { IfSome result (λ t. (t.i ≡ r.i + 1) × (t.place ≡ code.next)) }
    {
        if self.colors.n - r.from <= code.value {
            return None;
        }
        let id = r.from + code.value;
        put_id(room, r.i, id);
        Some(Reached {
            i: r.i + 1,
            from: id + 1,
            place: code.next,
        })
    }

    // Behind the next code, wherever it stands.
    fn read_one(self, r: Reached, room: &mut [u32]) -> Option<Reached>
        requires { Within self r × (r.i < self.count) }
        ensures { ReadOn 1 self.entry r room.old room.new result }
    {
        let code = self.source.next_delta(r.place)?;
        self.put_code(r, code, room)
    }

    // Behind the ones that the number begins with: each is the code of an id that is one above the id before it.
    #[inline(always)]
    fn read_run(self, s: Seen, room: &mut [u32]) -> Option<Reached>
        requires within { SeenAt self s × (s.reached.i < self.count) }
        requires one { (0 < s.many) × (s.word % 2 ≡ 1) }
        ensures { ReadOn 1 self.entry s.reached room.old room.new result }
    {
        let r = s.reached;
        let ones = crate::bits::low_ones(s.word);
        let k = ones.min(s.many).min(self.count - r.i);
        if ((self.colors.n - r.from) as usize) < k {
            return None;
        }
        put_numbers(room, r.i, r.from, k);
        Some(Reached {
            i: r.i + k,
            from: r.from + k as u32,
            place: r.place + k,
        })
    }

    // Behind the code that the number begins with, where it is shown whole, and its first nine bits tell it.
    #[inline(always)]
    fn read_seen(self, s: Seen, room: &mut [u32]) -> Option<Seen>
        requires { SeenAt self s × (s.reached.i < self.count) }
        ensures { ReadSeen self.entry s room.old room.new result }
    {
        let Some(code) = crate::codes::delta_of(s.word) else {
            return Some(s);
        };
        if s.many < code.count {
            return Some(s);
        }
        let reached = self.put_code(s.reached, code.behind(s.reached.place), room)?;
        Some(Seen {
            reached,
            word: s.word >> code.count,
            many: s.many - code.count,
        })
    }

    // Behind the codes that the number shows so, three at most. Where ones follow the first, they are read as a run next.
    #[inline(always)]
    fn read_three(self, s: Seen, room: &mut [u32]) -> Option<Reached>
        requires { SeenAt self s × (s.reached.i + 3 ≤ self.count) }
        ensures { ReadOn 0 self.entry s.reached room.old room.new result }
    {
        let s = self.read_seen(s, room)?;
        if s.word % 16 == 15 {
            return Some(s.reached);
        }
        let s = self.read_seen(s, room)?;
        let s = self.read_seen(s, room)?;
        Some(s.reached)
    }

    // Behind ones or codes that a number shows.
    #[inline(always)]
    fn read_shown(self, s: Seen, room: &mut [u32]) -> Option<Reached>
        requires { SeenAt self s × (0 < s.many) × (s.reached.i + 3 ≤ self.count) }
        ensures { ReadOn 0 self.entry s.reached room.old room.new result }
    {
        if s.word % 16 == 15 {
            return self.read_run(s, room);
        }
        self.read_three(s, room)
    }

    // The same of the last eight bytes: as many bits as are left.
    fn read_last(self, r: Reached, room: &mut [u32]) -> Option<Reached>
        requires within { Within self r × (r.i + 3 ≤ self.count) }
        requires last { length self.source.bytes.now < r.place / 8 + 8 }
        ensures { ReadOn 0 self.entry r room.old room.new result }
    {
        let len = self.source.bytes.len();
        if 8 * len <= r.place {
            return Some(r);
        }
        let past = r.place - 8 * len.saturating_sub(8);
        let s = Seen {
            reached: r,
            word: self.source.last >> past,
            many: 8 * len - r.place,
        };
        self.read_shown(s, room)
    }

    // The same where three ids or more are left. Of eight bytes 57 bits are shown from any bit of the first on; they stand apart
    // from the last ones, so that the loop knows their number.
    #[inline(always)]
    fn read_word(self, r: Reached, room: &mut [u32]) -> Option<Reached>
        requires { Within self r }
        ensures { ReadOn 0 self.entry r room.old room.new result }
    {
        if self.count - r.i < 3 {
            return Some(r);
        }
        let k = r.place / 8;
        if self.source.bytes.len() < k + 8 {
            return self.read_last(r, room);
        }
        let s = Seen {
            reached: r,
            word: crate::bits::word_at(self.source.bytes, k) >> (r.place % 8),
            many: 57,
        };
        self.read_shown(s, room)
    }

    // Behind words, as long as one shows ids.
    fn read_words(self, room: &mut [u32]) -> Option<Reached>
        ensures { ReadOn 0 self.entry (record { i = 0; from = 0; place = self.entry.at }) room.old room.new result }
    {
        let mut r = Reached {
            i: 0,
            from: 0,
            place: self.at,
        };
        loop {
            let next = self.read_word(r, room)?;
            if next.i == r.i {
                return Some(next);
            }
            r = next;
        }
    }

    // The place behind the ids, where that many are coded as distances. They go to the front of `room`, as
    // many as it holds.
    pub(crate) fn read_gaps(self, room: &mut [u32]) -> Option<usize>
        ensures { IdsAt (read_gaps self.entry.count 0 self.entry.colors.n) self.entry result × Put (gaps_in self.entry) room.old room.new }
    {
        let mut r = self.read_words(room)?;
        while r.i < self.count {
            r = self.read_one(r, room)?;
        }
        Some(r.place)
    }
}
