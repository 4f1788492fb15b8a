// Payloads: a set's length, then its ids by one of three regimes.
// `as` below: no `From` leads between u32 and usize, and no number is cut by it, which is proved.
ghost use Rattle.std.specs.Prelude.{◌≡◌, ◌&&◌, ltb, ◌+◌, ◌*◌, ◌<◌, ◌≤◌, ◌^◌, length, get_or, take, drop};
ghost use Rattle.base.specs.Parts.{over};
ghost use Rattle.codec.specs.Bits.{bits_of};
ghost use Rattle.codec.specs.Sets.{within, regime, dense, body_bits, set_bits, encode_set, read_map, read_body, padding, decode_set};
ghost use Rattle.codec.specs.Inside.Writers.{Ready, Wrote};
ghost use Rattle.codec.specs.Inside.Gaps.{BitsAt, AbsentIn};
ghost use Rattle.codec.specs.Inside.Payloads.{has_fall, regime_of, set_ids, gives_set};
ghost use Rattle.codec.specs.Inside.Bodies.{bits_in, IdsAt, KeptBy, KeptIn, IsBody, PayloadOf, KeptOf};

use crate::bits::BitWriter;
use crate::body::Body;
use crate::codes::ReadCode;
use crate::colors::{ColorSet, Colors};
use crate::gaps::{Absent, Checked, Present};
use crate::source::Source;

// Whether an id is not above the one before it. There is no early way out, so that several ids are
// compared at a time.
fn has_fall(ids: &[u32]) -> bool
    requires { 0 < length ids.now }
    ensures { result ≡ has_fall (get_or ids.now 0 0) (drop 1 ids.now) }
{
    let mut found = false;
    for (before, id) in ids.iter().zip(&ids[1..]) {
        found |= *id <= *before;
    }
    found
}

// Whether the ids ascend strictly and are all below `n`.
pub(crate) fn is_ascending(ids: &[u32], n: u32) -> bool
    ensures { result ≡ within 0 n ids.now }
{
    let Some(last) = ids.last() else {
        return true;
    };
    *last < n && !has_fall(ids)
}

// How a set of `len` ids is written.
#[derive(Clone, Copy)]
pub(crate) enum Kind {
    Empty,
    Sparse,
    Bitmap,
    Dense,
}

pub(crate) fn kind_of(n: u32, len: usize) -> Kind
    ensures { regime_of result ≡ regime n len }
{
    if len == 0 {
        return Kind::Empty;
    }
    if len < (n / 4) as usize {
        return Kind::Sparse;
    }
    if len < (3 * n as usize) / 4 {
        return Kind::Bitmap;
    }
    Kind::Dense
}

// How many bits a set takes. The ids absent from it are in `list`, where there is one.
pub(crate) fn set_len(set: ColorSet, list: Option<ColorSet>) -> usize
    requires { AbsentIn set.colors.n set.ids.now list }
    ensures { (result ≡ length (set_bits set.entry.colors.n set.entry.ids.now)) × (result < 2 ^ 26) }
{
    let head = crate::codes::delta_len(set.ids.len() as u32);
    match kind_of(set.colors.n, set.ids.len()) {
        Kind::Empty => head,
        Kind::Sparse => head + crate::gaps::gaps_len::<Present>(set),
        Kind::Bitmap => head + set.colors.n as usize,
        Kind::Dense => head + crate::absent::absent_len(set, list),
    }
}

// The ids behind the bits of `w`. Those absent are in `list`, where there is one.
pub(crate) fn write_body(w: &mut BitWriter, set: ColorSet, list: Option<ColorSet>)
    requires listed { AbsentIn set.colors.n set.ids.now list }
    requires ready { Ready w.old (length (body_bits (regime set.colors.n (length set.ids.now)) set.colors.n set.ids.now)) }
    ensures same_reference { w.new.out.ghost_name ≡ w.old.out.ghost_name }
    ensures wrote { Wrote w.old w.new (body_bits (regime set.entry.colors.n (length set.entry.ids.now)) set.entry.colors.n set.entry.ids.now) }
{
    match kind_of(set.colors.n, set.ids.len()) {
        Kind::Empty => {}
        Kind::Sparse => crate::gaps::write_gaps::<Present>(w, set),
        Kind::Bitmap => crate::bitmap::write_map(w, set),
        Kind::Dense => crate::absent::write_absent(w, set, list),
    }
}

// The payload of a set to the front of `out`: how many bytes it has. What lies behind it may be written too. The ids absent
// from the set are in `list`, where there is one.
pub(crate) fn encode_source_set(out: &mut [u8], set: ColorSet, list: Option<ColorSet>) -> usize
    requires listed { AbsentIn set.colors.n set.ids.now list }
    requires space { length (encode_set set.colors.n set.ids.now) ≤ length out.old }
    ensures { (result ≡ length (encode_set set.entry.colors.n set.entry.ids.now)) × (take result out.new ≡ encode_set set.entry.colors.n set.entry.ids.now) × (length out.new ≡ length out.old) }
{
    let mut w = BitWriter::new(out);
    crate::codes::write_delta(&mut w, set.ids.len() as u32);
    write_body(&mut w, set, list);
    w.finish()
}

impl Body<'_> {
    // The place behind the ids, where they are. Those coded as distances are kept in `room`, if they fit.
    fn check(self, room: &mut [u32]) -> Option<usize>
        ensures { IdsAt (read_body (regime self.entry.colors.n self.entry.count) self.entry.colors.n self.entry.count) self.entry result × KeptIn self.entry room.new }
    {
        match kind_of(self.colors.n, self.count) {
            Kind::Empty => Some(self.at),
            Kind::Sparse => self.read_gaps(room),
            Kind::Bitmap => self.check_map(),
            Kind::Dense => self.check_absent(room),
        }
    }

    fn check_map(self) -> Option<usize>
        ensures { IdsAt (read_map self.entry.colors.n self.entry.count) self.entry result }
    {
        let n = self.colors.n as usize;
        if self.source.bytes.len() * 8 - self.at < n {
            return None;
        }
        (self.count_map() == self.count).then_some(self.at + n)
    }

    fn check_absent(self, room: &mut [u32]) -> Option<usize>
        ensures { IdsAt (read_body dense self.entry.colors.n self.entry.count) self.entry result × KeptBy dense self.entry.colors.n self.entry.count (bits_in self.entry) room.new }
    {
        let absent = (self.colors.n as usize).checked_sub(self.count)?;
        self.with_count(absent).read_gaps(room)
    }

    // So many ids at the same place.
    fn with_count(self, count: usize) -> Self
        ensures { result ≡ record self.entry { count = count } }
    {
        Self {
            source: self.source,
            colors: self.colors,
            count,
            at: self.at,
        }
    }

    // The ids to the front of `out`, by `room` where it has them.
    pub(crate) fn fill(self, room: &[u32], out: &mut [u32])
        requires space { self.count ≤ length out.old }
        requires checked { IsBody self × KeptIn self room.now }
        ensures { out.new ≡ over (set_ids (decode_set self.entry.colors.n self.entry.source.bytes.now)) out.old }
    {
        match kind_of(self.colors.n, self.count) {
            Kind::Empty => {}
            Kind::Sparse => Checked { body: self, room }.fill(out),
            Kind::Bitmap => self.fill_map(out),
            Kind::Dense => {
                let body = self.with_count(self.colors.n as usize - self.count);
                Checked { body, room }.fill_left_out(out);
            }
        }
    }
}

// What a payload holds, where it is that of a set. The ids coded as distances are kept in `room`, if they fit.
pub(crate) fn check_set<'a>(
    colors: Colors,
    source: Source<'a>,
    room: &mut [u32],
) -> Option<Body<'a>>
    ensures { PayloadOf colors.n source.entry.bytes.now result × KeptOf result room.new }
{
    let ReadCode { value, next } = crate::reader::first_delta(source.bytes)?;
    let body = Body {
        source,
        colors,
        count: value as usize,
        at: next,
    };
    let behind = body.check(room)?;
    source.is_padding(behind).then_some(body)
}

// The place behind the bits of a set's ids, where they stand at bit place `at`.
pub(crate) fn same_body(set: ColorSet, source: Source, at: usize) -> Option<usize>
    requires { at ≤ 8 * length source.bytes.now }
    ensures { BitsAt (body_bits (regime set.entry.colors.n (length set.entry.ids.now)) set.entry.colors.n set.entry.ids.now) source.entry.bytes.now at result }
{
    match kind_of(set.colors.n, set.ids.len()) {
        Kind::Empty => Some(at),
        Kind::Sparse => crate::gaps::same_gaps::<Present>(source, at, set),
        Kind::Bitmap => crate::bitmap::same_map(source, at, set),
        Kind::Dense => crate::gaps::same_gaps::<Absent>(source, at, set),
    }
}

// Whether the payload is the one written for these ids. It stands alone in the machine code, so that the loops in
// it have the registers. The payload comes as a slice, as to `read_payload`: a `Source` has a word more.
#[inline(never)]
pub(crate) fn same_set(set: ColorSet, payload: &[u8]) -> bool
    requires { length payload.now < 2 ^ 60 }
    ensures { result ≡ gives_set (decode_set set.entry.colors.n payload.now) set.entry.ids.now }
{
    let Some(ReadCode { value, next }) = crate::reader::first_delta(payload) else {
        return false;
    };
    if value as usize != set.ids.len() {
        return false;
    }
    let source = Source::new(payload);
    let Some(behind) = same_body(set, source, next) else {
        return false;
    };
    source.is_padding(behind)
}
