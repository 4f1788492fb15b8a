// The index of a record file: where each record begins, and where the last one ends.
// `as` below: no `From` leads from usize to u64.
ghost use Rattle.std.specs.Prelude.{◌≡◌, [], ◌≤◌, ◌<◌, length};
ghost use Rattle.base.specs.Answers.{done, of_made};
ghost use Rattle.base.specs.Parts.{over};
ghost use Rattle.codec.specs.Index.{index_of, make_index};
ghost use Rattle.codec.specs.Inside.Indexes.{SteppedAt, outcome, entries_in};

use crate::prefix::Prefix;
use base::Refusal;

// The place behind the record that begins at `at`, by its whole prefix; its payload is skipped. A prefix that isn't whole passes its refusal straight up.
fn long_record(bytes: &[u8], at: usize) -> Result<usize, Refusal>
    requires { at ≤ length bytes.now }
    ensures { SteppedAt bytes.now at result }
{
    let Prefix { value, len } = crate::prefix::read_varint_len(&bytes[at..])?;
    crate::prefix::payload_end(bytes, at + len, value)
}

// The same, small enough to stand in the loops: most prefixes have one byte.
fn next_record(bytes: &[u8], at: usize) -> Result<usize, Refusal>
    requires { at ≤ length bytes.now }
    ensures { SteppedAt bytes.now at result }
{
    let first = *bytes.get(at).ok_or(Refusal::Cut)?;
    let size = usize::from(first);
    if 128 <= size {
        return long_record(bytes, at);
    }
    if bytes.len() - at <= size {
        return Err(Refusal::Cut);
    }
    Ok(at + 1 + size)
}

// Whether `count` records stand in the bytes; nothing is written.
fn check_records(bytes: &[u8], count: usize) -> Result<(), Refusal>
    ensures { of_made result ≡ outcome (index_of count bytes.now) }
{
    let mut at: usize = 0;
    for _ in 0..count {
        at = next_record(bytes, at)?;
    }
    Ok(())
}

// The start of each of `count` records that stand in the bytes, and the end of the last, to the front
// of `out`.
fn fill_index(bytes: &[u8], count: usize, out: &mut [u64])
    requires { (outcome (index_of count bytes.now) ≡ done []) × (count < length out.old) }
    ensures { out.new ≡ over (entries_in (index_of count bytes.now)) out.old }
{
    let mut at: usize = 0;
    for entry in &mut out[..count] {
        *entry = at as u64;
        let Ok(next) = next_record(bytes, at) else {
            // No record is missing, so this place is never reached.
            return;
        };
        at = next;
    }
    out[count] = at as u64;
}

// The start of each of the first `count` records, and the end of the last, to the front of `out`.
pub fn index_worker(bytes: &[u8], count: usize, out: &mut [u64]) -> Result<(), Refusal>
    ensures { (of_made result, out.new) ≡ make_index count bytes.now out.old }
{
    if out.len() <= count {
        return Err(Refusal::Space);
    }
    check_records(bytes, count)?;
    fill_index(bytes, count, out);
    Ok(())
}
