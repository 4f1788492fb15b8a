// Records: a payload's length as a prefix, then the payload.
// `as` below: no `From` leads between u32 and usize, or from usize to u8, and no number is cut by it, which is proved.
ghost use Rattle.std.specs.Prelude.{◌≡◌, ◌&&◌, ltb, leb, ◌+◌, ◌≤◌, ◌<◌, ◌^◌, length, drop};
ghost use Rattle.base.specs.Answers.{of_written, of_given};
ghost use Rattle.base.specs.Parts.{over};
ghost use Rattle.codec.specs.Records.{bad_colors, record_of, write_record, record_length, read_into, is_record};
ghost use Rattle.codec.specs.Sets.{encode_set, decode_set};
ghost use Rattle.codec.specs.Inside.Gaps.{AbsentIn};
ghost use Rattle.codec.specs.Inside.Payloads.{put_set};

use crate::colors::{ColorSet, Colors};
use crate::copies::copy_front;
use crate::measured::Measured;
use crate::prefix::Prefix;
use crate::sets::Kind;
use crate::source::Source;
use base::{Given, Refusal};

// Whether a colour count is outside 1 to 1,048,576.
#[tactic(auto, unfolding(crate::specs::Records::bad_colors))]
pub fn bad_colors(n: u32) -> bool
    ensures { result ≡ bad_colors n }
{
    n == 0 || 1048576 < n
}

// How long the record of a set is.
pub fn color_record_len(n: u32, ids: &[u32]) -> Result<usize, Refusal>
    ensures { of_written result ≡ record_length n ids.now }
{
    let set = Measured::new(n, ids)?;
    Ok(set.record_len())
}

// Whether any record of sets of `n` colours fits in `room` bytes with a prefix of one byte.
fn is_short(n: u32, room: usize) -> bool
    ensures { result ≡ (ltb n 136 && leb 128 room) }
{
    n < 136 && 128 <= room
}

// The record of a set to the front of `out`: how long it is. With so few colours a payload has fewer than 128
// bytes, so that it needs no measuring before it is written behind its length. It is made in a room of its own, as what lies
// behind a payload may be written too.
fn write_short(set: ColorSet, out: &mut [u8]) -> usize
    requires { (set.colors.n < 136) × (128 ≤ length out.old) }
    ensures { (result ≡ length (record_of set.entry.colors.n set.entry.ids.now)) × (result ≤ 128) × (out.new ≡ over (record_of set.entry.colors.n set.entry.ids.now) out.old) }
{
    let mut room = [0u8; 136];
    let len = crate::sets::encode_source_set(&mut room, set, None);
    let payload = &mut out[1..len + 1];
    copy_front(&room, payload);
    out[0] = len as u8;
    len + 1
}

// The record of a set to the front of `out`.
pub fn write_color_record(n: u32, ids: &[u32], out: &mut [u8]) -> Result<usize, Refusal>
    ensures { (of_written result, out.new) ≡ write_record n ids.now out.old }
{
    let set = ColorSet::new(n, ids)?;
    if is_short(n, out.len()) {
        return Ok(write_short(set, out));
    }
    match crate::sets::kind_of(n, ids.len()) {
        Kind::Dense => write_dense(set, out),
        _ => write_long(set, None, out),
    }
}

// The record of a dense set to the front of `out`. The ids absent from it are listed first, where they are not too many,
// so that they are found once. Few are given little room, as it is cleared first.
fn write_dense(set: ColorSet, out: &mut [u8]) -> Result<usize, Refusal>
    ensures { (of_written result, out.new) ≡ write_record set.entry.colors.n set.entry.ids.now out.old }
{
    let absent = set.colors.n as usize - set.ids.len();
    if absent <= 64 {
        let mut room = [0u32; 68];
        return write_listed(set, &mut room, out);
    }
    if absent <= 1024 {
        let mut room = [0u32; 1028];
        return write_listed(set, &mut room, out);
    }
    if absent <= 16384 {
        return write_many_listed(set, out);
    }
    write_long(set, None, out)
}

// The same, with room for more ids. It stands alone in the machine code, as `read_long_payload` does.
#[inline(never)]
fn write_many_listed(set: ColorSet, out: &mut [u8]) -> Result<usize, Refusal>
    requires { set.colors.n ≤ length set.ids.now + 16384 }
    ensures { (of_written result, out.new) ≡ write_record set.entry.colors.n set.entry.ids.now out.old }
{
    let mut room = [0u32; 16388];
    write_listed(set, &mut room, out)
}

// The same, with the absent ids listed in `room`, which has four places more than they are: see `list_numbers`.
fn write_listed(set: ColorSet, room: &mut [u32], out: &mut [u8]) -> Result<usize, Refusal>
    requires { set.colors.n + 4 ≤ length set.ids.now + length room.old }
    ensures { (of_written result, out.new) ≡ write_record set.entry.colors.n set.entry.ids.now out.old }
{
    crate::absent::list_absent(set, room);
    let count = set.colors.n as usize - set.ids.len();
    let list = ColorSet {
        colors: set.colors,
        ids: &room[..count],
    };
    write_long(set, Some(list), out)
}

// The record of a set to the front of `out`. The ids absent from it are in `list`, where there is one.
fn write_long(set: ColorSet, list: Option<ColorSet>, out: &mut [u8]) -> Result<usize, Refusal>
    requires { AbsentIn set.colors.n set.ids.now list }
    ensures { (of_written result, out.new) ≡ write_record set.entry.colors.n set.entry.ids.now out.old }
{
    let len = crate::measured::payload_len(set, list);
    crate::measured::write_measured(set, len, list, out)
}

// The set at the front of `input` to the front of `ids`. A prefix that isn't whole passes its refusal straight up.
pub fn read_color_record(n: u32, input: &[u8], ids: &mut [u32]) -> Result<Given, Refusal>
    ensures { (of_given result, ids.new) ≡ read_into n input.now ids.old }
{
    let colors = Colors::new(n)?;
    let Prefix { value, len } = crate::prefix::read_varint_len(input)?;
    let bytes = crate::prefix::payload_end(input, len, value)?;
    let items = read_payload(colors, &input[len..bytes], ids)?;
    Ok(Given { items, bytes })
}

// The set of a payload to the front of `ids`: how many they are. Ids coded as distances are kept while they are
// tested, so that most sets are decoded once. Small sets are given little room, as it is cleared first. The payload comes
// as a slice: a `Source`, of three words, would go through memory at these calls, which slows small sets.
fn read_payload(colors: Colors, payload: &[u8], ids: &mut [u32]) -> Result<usize, Refusal>
    requires { length payload.now < 2 ^ 60 }
    ensures { (of_written result, ids.new) ≡ put_set (decode_set colors.n payload.now) ids.old }
{
    if payload.len() < 64 {
        let mut room = [0u32; 32];
        return read_by_room(colors, payload, ids, &mut room);
    }
    if payload.len() < 2048 {
        let mut room = [0u32; 1024];
        return read_by_room(colors, payload, ids, &mut room);
    }
    read_long_payload(colors, payload, ids)
}

// The same, with room for more ids. It stands alone in the machine code: so shorter payloads don't pay for the pages of
// its frame.
#[inline(never)]
fn read_long_payload(colors: Colors, payload: &[u8], ids: &mut [u32]) -> Result<usize, Refusal>
    requires { length payload.now < 2 ^ 60 }
    ensures { (of_written result, ids.new) ≡ put_set (decode_set colors.n payload.now) ids.old }
{
    let mut room = [0u32; 16384];
    read_by_room(colors, payload, ids, &mut room)
}

// The same, with the ids kept in `room`.
fn read_by_room(
    colors: Colors,
    payload: &[u8],
    ids: &mut [u32],
    room: &mut [u32],
) -> Result<usize, Refusal>
    requires { length payload.now < 2 ^ 60 }
    ensures { (of_written result, ids.new) ≡ put_set (decode_set colors.n payload.now) ids.old }
{
    let source = Source::new(payload);
    let Some(body) = crate::sets::check_set(colors, source, room) else {
        return Err(Refusal::Damaged);
    };
    if ids.len() < body.count {
        return Err(Refusal::Space);
    }
    body.fill(room, ids);
    Ok(body.count)
}

// Whether reading `input` gives exactly `ids`; nothing is decoded into a buffer.
pub fn is_color_record(n: u32, ids: &[u32], input: &[u8]) -> bool
    ensures { result ≡ is_record n ids.now input.now }
{
    let Ok(set) = ColorSet::new(n, ids) else {
        return false;
    };
    let Ok(Prefix { value, len }) = crate::prefix::read_varint_len(input) else {
        return false;
    };
    let Ok(end) = crate::prefix::payload_end(input, len, value) else {
        return false;
    };
    crate::sets::same_set(set, &input[len..end])
}
