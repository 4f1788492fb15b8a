// Bits of a byte slice, lowest first, and a writer of bits.
// Bytes and bit place are plain parameters, as the specification names this form for the readers of codes above, so
// a function says itself how long the bytes are at most.
// `as` below: no `From` leads from u32 to usize.
ghost use Rattle.std.specs.Prelude.{◌≡◌, ◌++◌, ◌+◌, ◌-◌, ◌*◌, ◌%◌, ◌<◌, ◌≤◌, ◌^◌, true, length, slice_get, take, drop, replicate};
ghost use Rattle.base.specs.Parts.{over};
ghost use Rattle.codec.specs.Bits.{bits_of, value_of, low_bits, pack_bits, AreBytes};
ghost use Rattle.codec.specs.Inside.Windows.{Window};
ghost use Rattle.codec.specs.Inside.Buffers.{low_bytes, Placed};

// Bit `at` of the slice, if it has one.
pub(crate) fn bit_at(bytes: &[u8], at: usize) -> Option<bool>
    ensures { result ≡ slice_get (bits_of bytes.now) at }
{
    let byte = *bytes.get(at / 8)?;
    Some((byte >> (at % 8)) % 2 == 1)
}

// The eight bytes from `k`, lowest first, as one number.
pub(crate) fn word_at(bytes: &[u8], k: usize) -> u64
    requires { k + 8 ≤ length bytes.now }
    ensures { bits_of (drop k bytes.now) ≡ low_bits 64 result ++ bits_of (drop (k + 8) bytes.now) }
{
    let eight = bytes[k..].first_chunk();
    u64::from_le_bytes(*eight.unwrap())
}

// The bytes from `k` to the end, fewer than eight, lowest first, as one number.
fn tail_at(bytes: &[u8], k: usize) -> u64
    requires { (k ≤ length bytes.now) × (length bytes.now < k + 8) }
    ensures { (bits_of (drop k bytes.now) ≡ low_bits (8 * (length bytes.now - k)) result) × (result < 2 ^ (8 * (length bytes.now - k))) }
{
    let mut value: u64 = 0;
    for &byte in bytes[k..].iter().rev() {
        value = u64::from(byte) + 256 * value;
    }
    value
}

// The 64 bits from byte `k` on, as one number; past the end they are 0.
pub(crate) fn window_at(bytes: &[u8], k: usize) -> u64
    requires { k < 2 ^ 61 }
    ensures { Window bytes.now k result }
{
    if k + 8 <= bytes.len() {
        return word_at(bytes, k);
    }
    if bytes.len() <= k {
        return 0;
    }
    tail_at(bytes, k)
}

// The last eight bytes, or all where there are fewer, as one number.
pub(crate) fn last_word(bytes: &[u8]) -> u64
    requires { length bytes.now < 2 ^ 60 }
    ensures { Window bytes.now (length bytes.now - 8) result }
{
    window_at(bytes, bytes.len().saturating_sub(8))
}

// The number whose low bits are the `b` bits from `at`.
pub(crate) fn bits_at(bytes: &[u8], at: usize, b: usize) -> u64
    requires b_bound { (at + b ≤ 8 * length bytes.now) × (b ≤ 32) }
    requires bytes_len_bound { length bytes.now < 2 ^ 60 }
    ensures { (result ≡ value_of (take b (drop at (bits_of bytes.now)))) × (result < 2 ^ b) }
{
    (window_at(bytes, at / 8) >> (at % 8)) % (1u64 << b)
}

// How many ones stand at the low end of a number.
pub(crate) fn low_ones(word: u64) -> usize
    ensures { (low_bits result word ≡ replicate result true) × (word % 2 ≡ 1 → 0 < result) }
{
    (!word).trailing_zeros() as usize
}

// The low bytes of `x`, as many as `out` has. One by one: a copy of a few bytes, how many isn't known, would be a call of C's memcpy,
// which takes longer, and which the archive doesn't ask for.
fn put_bytes(out: &mut [u8], x: u64)
    ensures { out.new ≡ low_bytes (length out.old) x }
{
    let mut rest = x;
    for byte in out.iter_mut() {
        *byte = (rest % 256) as u8;
        rest /= 256;
    }
}

// The `len` low bytes of `x` to place `at`. All eight are stored where there is space for them, so that most words take one
// store: what lies behind the `len` bytes may be written too.
fn put_low_bytes(out: &mut [u8], at: usize, x: u64, len: usize)
    requires { (at + len ≤ length out.old) × (len ≤ 8) }
    ensures { Placed out.old out.new at len x }
{
    if at + 8 <= out.len() {
        out[at..at + 8].copy_from_slice(&x.to_le_bytes());
    } else {
        put_bytes(&mut out[at..at + len], x);
    }
}

// A writer of bits over a lent buffer: `at` whole bytes are written, and the low `pending` bits of
// `acc` wait. Nothing is said of what lies behind: words are stored whole. Whoever takes one by `&mut` ensures that `out` keeps
// its ghost name: else a caller doesn't know that the bits went to its own buffer.
#[derive(Drop)]
pub(crate) struct BitWriter<'a> {
    pub(crate) out: &'a mut [u8],
    pub(crate) at: usize,
    pub(crate) acc: u64,
    pub(crate) pending: u32,
    ghost few: { pending < 8 },
    ghost low: { acc < 2 ^ pending },
}

impl<'a> BitWriter<'a> {
    ghost use Rattle.codec.specs.Inside.Writers.{stream_of, Fresh, Ready, Wrote};

    // A writer at the front of a buffer.
    pub(crate) fn new(out: &'a mut [u8]) -> Self
        ensures same_reference { result.out.ghost_name ≡ out.entry.ghost_name }
        ensures front { Fresh out.old result }
    {
        Self {
            out,
            at: 0,
            acc: 0,
            pending: 0,
        }
    }

    // The low `count` bits of `value` behind the bits written.
    pub(crate) fn push(&mut self, value: u64, count: u32)
        requires ready { Ready self.old count }
        requires value_bound { (value < 2 ^ count) × (count ≤ 56) }
        ensures same_reference { self.new.out.ghost_name ≡ self.old.out.ghost_name }
        ensures wrote { Wrote self.old self.new (low_bits count value) }
    {
        let acc = self.acc + (value << self.pending);
        let pending = self.pending + count;
        let len = (pending / 8) as usize;
        put_low_bytes(self.out, self.at, acc, len);
        self.at += len;
        self.acc = acc >> (8 * (pending / 8));
        self.pending = pending % 8;
    }

    // The bits written as bytes, the last padded with zeros: how many.
    pub(crate) fn finish(&mut self) -> usize
        requires { Ready self.old 0 × AreBytes self.old.out.now }
        ensures same_reference { self.new.out.ghost_name ≡ self.old.out.ghost_name }
        ensures packed { (result ≡ length (pack_bits (stream_of self.old))) × (take result self.new.out.now ≡ pack_bits (stream_of self.old)) × (length self.new.out.now ≡ length self.old.out.now) }
    {
        let len = self.pending.div_ceil(8) as usize;
        put_low_bytes(self.out, self.at, self.acc, len);
        self.at + len
    }
}
