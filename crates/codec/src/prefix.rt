// LEB128 length prefixes: seven bits a byte, low group first, 128 added on all but the last.
// `as` below: no `From` leads from u32 to usize. Each group is proved to fit a byte, and `try_from` would add a case
// that can't come.
ghost use Rattle.std.specs.Prelude.{◌≡◌, ◌+◌, ◌*◌, ◌<◌, ◌≤◌, ◌^◌, length, IfOk, IfErr};
ghost use Rattle.base.specs.Answers.{of_written, number_of};
ghost use Rattle.base.specs.Parts.{over};
ghost use Rattle.codec.specs.Prefix.{prefix_of, read_prefix, of_prefix, prefix_in, write_prefix};
ghost use Rattle.codec.specs.Inside.Prefixes.{last_of};

use base::Refusal;

// A number and the count of its bytes.
#[derive(Clone, Copy, Debug, PartialEq, Eq)]
pub struct Prefix {
    pub value: u32,
    pub len: usize,
}

// The last group `b` behind `i` groups of value `low`.
fn last_group(low: u64, b: u64, i: usize) -> Result<Prefix, Refusal>
    requires { (low < 2 ^ (7 * i)) × (b < 128) × (i < 5) }
    ensures { of_prefix result ≡ last_of low b i }
{
    if b == 0 && 0 < i {
        return Err(Refusal::Damaged);
    }
    let Ok(value) = u32::try_from(low + (b << (7 * i))) else {
        return Err(Refusal::Damaged);
    };
    Ok(Prefix { value, len: i + 1 })
}

// The length prefix at the front of the bytes.
pub fn read_varint_len(bytes: &[u8]) -> Result<Prefix, Refusal>
    ensures { of_prefix result ≡ prefix_in (length bytes.now) (read_prefix bytes.now) }
{
    let mut value: u64 = 0;
    // By place, so that a byte that is missing is told apart from a sixth group.
    for i in 0..5 {
        let byte = *bytes.get(i).ok_or(Refusal::Cut)?;
        let group = u64::from(byte);
        if group < 128 {
            return last_group(value, group, i);
        }
        value += (group - 128) << (7 * i);
    }
    Err(Refusal::Damaged)
}

// The end of the payload of `size` bytes that begins at `start`, behind its prefix, where all of it is there.
pub(crate) fn payload_end(bytes: &[u8], start: usize, size: u32) -> Result<usize, Refusal>
    requires { start ≤ length bytes.now }
    ensures whole { IfOk result (λ end. (end ≡ start + size) × (end ≤ length bytes.now)) }
    ensures cut { IfErr result (λ r. (number_of r ≡ 4) × (length bytes.now < start + size)) }
{
    let size = size as usize;
    if bytes.len() - start < size {
        return Err(Refusal::Cut);
    }
    Ok(start + size)
}

// How many bytes the prefix of `n` has.
pub fn varint_len(n: u32) -> usize
    ensures { (result ≡ length (prefix_of n)) × (result ≤ 5) }
{
    match n {
        ..128 => 1,
        ..16_384 => 2,
        ..2_097_152 => 3,
        ..268_435_456 => 4,
        _ => 5,
    }
}

// The prefix of `n` to the front of `out`, where it fits.
pub(crate) fn fill_varint(n: u32, out: &mut [u8])
    requires { length (prefix_of n) ≤ length out.old }
    ensures { out.new ≡ over (prefix_of n) out.old }
{
    let mut rest = n;
    for group in out.iter_mut() {
        if rest < 128 {
            *group = rest as u8;
            return;
        }
        *group = (rest % 128 + 128) as u8;
        rest /= 128;
    }
}

// The prefix of `n` to the front of `out`.
pub fn write_varint(n: u32, out: &mut [u8]) -> Result<usize, Refusal>
    ensures { (of_written result, out.new) ≡ write_prefix n out.old }
{
    let len = varint_len(n);
    if out.len() < len {
        return Err(Refusal::Space);
    }
    fill_varint(n, out);
    Ok(len)
}
