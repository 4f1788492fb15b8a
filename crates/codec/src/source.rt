// The bytes of a payload with the last eight of them as a number, and the reader of codes over both.
ghost use Rattle.std.specs.Prelude.{◌≡◌, ◌&&◌, ltb, ◌+◌, ◌-◌, ◌*◌, ◌/◌, ◌<◌, ◌≤◌, ◌^◌, length, drop};
ghost use Rattle.codec.specs.Bits.{bits_of};
ghost use Rattle.codec.specs.Codes.{read_delta};
ghost use Rattle.codec.specs.Sets.{padding};
ghost use Rattle.codec.specs.Inside.Places.{ReadCodeAt};
ghost use Rattle.codec.specs.Inside.Windows.{Window};

use crate::codes::{Coded, ReadCode};

// Made once for a payload, before its codes are read. The place of the next code stays a number beside it, as in
// the core's other readers.
#[derive(Clone, Copy)]
pub(crate) struct Source<'a> {
    pub(crate) bytes: &'a [u8],
    pub(crate) last: u64,
    ghost short: { length bytes.now < 2 ^ 60 },
    ghost shown: { Window bytes.now (length bytes.now - 8) last },
}

impl<'a> Source<'a> {
    pub(crate) fn new(bytes: &'a [u8]) -> Self
        requires { length bytes.now < 2 ^ 60 }
        ensures { result.bytes ≡ bytes.entry }
    {
        Self {
            bytes,
            last: crate::bits::last_word(bytes),
        }
    }

    // The value of the delta code at bit place `at`, among the last eight bytes. Where `last` doesn't show a
    // code whole, the plain reader decides.
    fn last_delta(self, at: usize) -> Option<ReadCode>
        requires { length self.bytes.now < at / 8 + 8 }
        ensures { ReadCodeAt read_delta self.entry.bytes.now at result }
    {
        let end = self.bytes.len() * 8;
        if end <= at {
            return crate::codes::delta_at(self.bytes, at);
        }
        let past = at - 8 * self.bytes.len().saturating_sub(8);
        let Some(Coded { value, count }) = crate::codes::delta_of(self.last >> past) else {
            return crate::codes::delta_at(self.bytes, at);
        };
        if end < at + count {
            return crate::codes::delta_at(self.bytes, at);
        }
        Some(ReadCode {
            value,
            next: at + count,
        })
    }

    // The value of the delta code at bit place `at`: one load where eight bytes are left, none behind. It
    // stands in the loops that read codes: a call of its own slows them.
    #[inline(always)]
    pub(crate) fn next_delta(self, at: usize) -> Option<ReadCode>
        ensures { ReadCodeAt read_delta self.entry.bytes.now at result }
    {
        let k = at / 8;
        if self.bytes.len() < k + 8 {
            return self.last_delta(at);
        }
        let w = crate::bits::word_at(self.bytes, k) >> (at % 8);
        let Some(Coded { value, count }) = crate::codes::delta_of(w) else {
            return crate::codes::delta_at(self.bytes, at);
        };
        Some(ReadCode {
            value,
            next: at + count,
        })
    }

    // Whether fewer than eight bits are left from `at` on, all zero.
    pub(crate) fn is_padding(self, at: usize) -> bool
        requires { at ≤ 8 * length self.bytes.now }
        ensures { result ≡ (ltb (length (drop at (bits_of self.entry.bytes.now))) 8 && padding (drop at (bits_of self.entry.bytes.now))) }
    {
        let left = self.bytes.len() * 8 - at;
        left < 8 && crate::bits::bits_at(self.bytes, at, left) == 0
    }
}
