// Elias gamma and delta codes.
// Bytes and bit place are plain parameters, as the specification names this form, so each reader says itself how
// long the bytes are at most.
// `as` below: no `From` leads from u64 to u32, or from either to usize, and no number is cut by it, which is proved.
ghost use Rattle.std.specs.Prelude.{◌≡◌, ◌++◌, ◌+◌, ◌-◌, ◌*◌, ◌/◌, ◌%◌, ◌<◌, ◌≤◌, ◌^◌, length};
ghost use Rattle.codec.specs.Bits.{low_bits};
ghost use Rattle.codec.specs.Codes.{high_bit, gamma, delta, read_low, read_gamma, read_delta};
ghost use Rattle.codec.specs.Inside.Places.{ReadCodeAt};
ghost use Rattle.codec.specs.Inside.Windows.{IsEntry, CodedIn};
ghost use Rattle.codec.specs.Inside.Writers.{Ready, Wrote, CodewordOf, ShortOf};

use crate::bits::BitWriter;
use crate::source::Source;

// A value and the bit place behind its code. A reader answers none where the bits code no value that a set can have.
#[derive(Clone, Copy)]
pub(crate) struct ReadCode {
    pub(crate) value: u32,
    pub(crate) next: usize,
}

impl Coded {
    // Its value, and the bit place behind it, where it stands at `at`.
    pub(crate) fn behind(self, at: usize) -> ReadCode
        requires { at + self.count < 2 ^ 64 }
        ensures { result ≡ record { value = self.value; next = at + self.count } }
    {
        ReadCode {
            value: self.value,
            next: at + self.count,
        }
    }
}

// The number whose highest set bit is bit `b` and whose lower bits are those from `at`, less 1.
pub(crate) fn low_at(bytes: &[u8], at: usize, b: usize) -> Option<ReadCode>
    requires { (length bytes.now < 2 ^ 60) × (at ≤ 8 * length bytes.now) }
    ensures { ReadCodeAt (read_low b) bytes.now at result }
{
    if 20 < b {
        return None;
    }
    if bytes.len() * 8 - at < b {
        return None;
    }
    let low = crate::bits::bits_at(bytes, at, b);
    Some(ReadCode {
        value: (low + (1u64 << b) - 1) as u32,
        next: at + b,
    })
}

// The value of the gamma code at bit place `at`. The loop yields how many zeros stand before a one, or
// none where the bits end first: the specification names this form.
pub(crate) fn read_gamma(bytes: &[u8], at: usize) -> Option<ReadCode>
    requires { length bytes.now < 2 ^ 60 }
    ensures { ReadCodeAt read_gamma bytes.now at result }
{
    let mut place = at;
    let zeros = loop {
        match crate::bits::bit_at(bytes, place) {
            None => break None,
            Some(true) => break Some(place - at),
            Some(false) => place += 1,
        }
    };
    let n = zeros?;
    low_at(bytes, at + n + 1, n)
}

// The value of the delta code at bit place `at`, bit by bit.
pub(crate) fn delta_at(bytes: &[u8], at: usize) -> Option<ReadCode>
    requires { length bytes.now < 2 ^ 60 }
    ensures { ReadCodeAt read_delta bytes.now at result }
{
    let ReadCode { value, next } = read_gamma(bytes, at)?;
    low_at(bytes, next, value as usize)
}

// A code at the low end of a number: its value and its count of bits.
#[derive(Clone, Copy)]
pub(crate) struct Coded {
    pub(crate) value: u32,
    pub(crate) count: usize,
}

// By the nine bits that a delta code begins with: its count of bits, 64 times how many of them its gamma code has, and 4,096
// times a mask of the others, which stand below its number's highest bit; 0 where nine bits don't show its gamma code whole, or 20
// bits follow it. A table, since finding the lowest set bit and shifting by its place take longer.
static CODES: [u32; 512] = [
    0, 65, 4292, 65, 29000, 65, 12485, 65, 520654, 65, 4292, 65, 61769, 65, 12485, 65, 134214232,
    65, 4292, 65, 127306, 65, 12485, 65, 1044943, 65, 4292, 65, 258379, 65, 12485, 65, 0, 65, 4292,
    65, 29000, 65, 12485, 65, 2093520, 65, 4292, 65, 61769, 65, 12485, 65, 268431961, 65, 4292, 65,
    127306, 65, 12485, 65, 4190673, 65, 4292, 65, 258379, 65, 12485, 65, 0, 65, 4292, 65, 29000,
    65, 12485, 65, 8384978, 65, 4292, 65, 61769, 65, 12485, 65, 536867418, 65, 4292, 65, 127306,
    65, 12485, 65, 16773587, 65, 4292, 65, 258379, 65, 12485, 65, 0, 65, 4292, 65, 29000, 65,
    12485, 65, 33550804, 65, 4292, 65, 61769, 65, 12485, 65, 1073738331, 65, 4292, 65, 127306, 65,
    12485, 65, 67105237, 65, 4292, 65, 258379, 65, 12485, 65, 0, 65, 4292, 65, 29000, 65, 12485,
    65, 520654, 65, 4292, 65, 61769, 65, 12485, 65, 2147480156, 65, 4292, 65, 127306, 65, 12485,
    65, 1044943, 65, 4292, 65, 258379, 65, 12485, 65, 0, 65, 4292, 65, 29000, 65, 12485, 65,
    2093520, 65, 4292, 65, 61769, 65, 12485, 65, 0, 65, 4292, 65, 127306, 65, 12485, 65, 4190673,
    65, 4292, 65, 258379, 65, 12485, 65, 0, 65, 4292, 65, 29000, 65, 12485, 65, 8384978, 65, 4292,
    65, 61769, 65, 12485, 65, 0, 65, 4292, 65, 127306, 65, 12485, 65, 16773587, 65, 4292, 65,
    258379, 65, 12485, 65, 0, 65, 4292, 65, 29000, 65, 12485, 65, 33550804, 65, 4292, 65, 61769,
    65, 12485, 65, 0, 65, 4292, 65, 127306, 65, 12485, 65, 67105237, 65, 4292, 65, 258379, 65,
    12485, 65, 0, 65, 4292, 65, 29000, 65, 12485, 65, 520654, 65, 4292, 65, 61769, 65, 12485, 65,
    0, 65, 4292, 65, 127306, 65, 12485, 65, 1044943, 65, 4292, 65, 258379, 65, 12485, 65, 0, 65,
    4292, 65, 29000, 65, 12485, 65, 2093520, 65, 4292, 65, 61769, 65, 12485, 65, 0, 65, 4292, 65,
    127306, 65, 12485, 65, 4190673, 65, 4292, 65, 258379, 65, 12485, 65, 0, 65, 4292, 65, 29000,
    65, 12485, 65, 8384978, 65, 4292, 65, 61769, 65, 12485, 65, 0, 65, 4292, 65, 127306, 65, 12485,
    65, 16773587, 65, 4292, 65, 258379, 65, 12485, 65, 0, 65, 4292, 65, 29000, 65, 12485, 65,
    33550804, 65, 4292, 65, 61769, 65, 12485, 65, 0, 65, 4292, 65, 127306, 65, 12485, 65, 67105237,
    65, 4292, 65, 258379, 65, 12485, 65, 0, 65, 4292, 65, 29000, 65, 12485, 65, 520654, 65, 4292,
    65, 61769, 65, 12485, 65, 0, 65, 4292, 65, 127306, 65, 12485, 65, 1044943, 65, 4292, 65,
    258379, 65, 12485, 65, 0, 65, 4292, 65, 29000, 65, 12485, 65, 2093520, 65, 4292, 65, 61769, 65,
    12485, 65, 0, 65, 4292, 65, 127306, 65, 12485, 65, 4190673, 65, 4292, 65, 258379, 65, 12485,
    65, 0, 65, 4292, 65, 29000, 65, 12485, 65, 8384978, 65, 4292, 65, 61769, 65, 12485, 65, 0, 65,
    4292, 65, 127306, 65, 12485, 65, 16773587, 65, 4292, 65, 258379, 65, 12485, 65, 0, 65, 4292,
    65, 29000, 65, 12485, 65, 33550804, 65, 4292, 65, 61769, 65, 12485, 65, 0, 65, 4292, 65,
    127306, 65, 12485, 65, 67105237, 65, 4292, 65, 258379, 65, 12485, 65,
];

// The entry of the code that the low bits of `w` begin with.
fn code_entry(w: u64) -> u32
    ensures { IsEntry w result }
{
    CODES[(w % 512) as usize]
}

// The delta code that the low bits of `w` begin with, where the first nine of them tell it.
pub(crate) fn delta_of(w: u64) -> Option<Coded>
    ensures { CodedIn w result }
{
    let entry = code_entry(w);
    if entry == 0 {
        return None;
    }
    let mask = u64::from(entry / 4096);
    let low = (w >> (entry / 64 % 64)) & mask;
    Some(Coded {
        value: (low + mask) as u32,
        count: (entry % 64) as usize,
    })
}

// The value of the delta code at bit place `at`, where one is read alone.
pub(crate) fn read_delta(bytes: &[u8], at: usize) -> Option<ReadCode>
    requires { length bytes.now < 2 ^ 60 }
    ensures { ReadCodeAt read_delta bytes.now at result }
{
    Source::new(bytes).next_delta(at)
}

// A code as a number and its count of bits, lowest first.
#[derive(Clone, Copy)]
pub(crate) struct Codeword {
    pub(crate) value: u64,
    pub(crate) count: u32,
}

impl Codeword {
    // Behind it the next.
    pub(crate) fn then(self, next: Codeword) -> Codeword
        requires { (self.value < 2 ^ self.count) × (next.value < 2 ^ next.count) × (self.count + next.count ≤ 56) }
        ensures { CodewordOf result (low_bits self.count self.value ++ low_bits next.count next.value) × (result.count ≡ self.count + next.count) }
    {
        Codeword {
            value: self.value + (next.value << self.count),
            count: self.count + next.count,
        }
    }
}

// What the delta code of a number, as a number, is short of that number and 1 behind as many bits as the gamma code has, by its
// highest set bit: that bit there, less the gamma code. A table, so that neither is made in the loop.
const SHORT_OF: [u32; 21] = [
    1, 14, 26, 252, 500, 1004, 2020, 16376, 32744, 65496, 131016, 262072, 524200, 1048472, 2097032,
    16777200, 33554384, 67108784, 134217616, 268435312, 536870736,
];

// How many bits the delta code of a number has whose highest set bit, 1 added, is bit 0 to 20.
const DELTA_LEN: [u8; 21] = [
    1, 4, 5, 8, 9, 10, 11, 14, 15, 16, 17, 18, 19, 20, 21, 24, 25, 26, 27, 28, 29,
];

// How many bits a delta code has, by the highest set bit of its number and 1.
fn top_len(bit: u32) -> u32
    requires { bit ≤ 20 }
    ensures { (result ≡ 2 * high_bit (bit + 1) + 1 + bit) × (result ≤ 29) }
{
    u32::from(DELTA_LEN[bit as usize])
}

// The highest set bit `bit` behind a gamma code, less the gamma code of `bit`.
fn short_of(bit: u32) -> u64
    requires { bit ≤ 20 }
    ensures { ShortOf bit result }
{
    u64::from(SHORT_OF[bit as usize])
}

// The delta code of `v`.
pub(crate) fn delta_word(v: u32) -> Codeword
    requires { v ≤ 2 ^ 20 }
    ensures { CodewordOf result (delta v) × (result.count ≤ 29) × (v + 1 < 2 ^ 20 → result.count ≤ 28) }
{
    let s = v + 1;
    let bit = s.ilog2();
    let count = top_len(bit);
    Codeword {
        value: (u64::from(s) << (count - bit)) - short_of(bit),
        count,
    }
}

// How many bits the delta code of `v` has.
pub(crate) fn delta_len(v: u32) -> usize
    requires { v ≤ 2 ^ 20 }
    ensures { (result ≡ length (delta v)) × (result ≤ 29) }
{
    top_len((v + 1).ilog2()) as usize
}

// The delta code of `v` behind the bits of `w`.
pub(crate) fn write_delta(w: &mut BitWriter, v: u32)
    requires { (v ≤ 2 ^ 20) × Ready w.old (length (delta v)) }
    ensures same_reference { w.new.out.ghost_name ≡ w.old.out.ghost_name }
    ensures wrote { Wrote w.old w.new (delta v) }
{
    let c = delta_word(v);
    w.push(c.value, c.count);
}
