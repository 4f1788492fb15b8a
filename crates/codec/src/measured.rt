// A set with the length of its payload: it is tested and measured once, also where its record is written later.
// `as` below: no `From` leads between u32 and usize, and no number is cut by it, which is proved.
ghost use Rattle.std.specs.Prelude.{ℕ, ◌≡◌, List, length};
ghost use Rattle.base.specs.Answers.{of_written};
ghost use Rattle.codec.specs.Records.{record_of, measured, write_record};
ghost use Rattle.codec.specs.Sets.{encode_set};
ghost use Rattle.codec.specs.Inside.Gaps.{AbsentIn};

use crate::colors::ColorSet;
use base::Refusal;
use std::marker::Model;

// Its value is the colour count and the ids.
#[derive(Drop)]
pub struct Measured<'a> {
    set: ColorSet<'a>,
    len: u32,
}

impl<'a> Model for Measured<'a> {
    ghost Value = { ℕ × List ℕ };

    ghost view = { λ m. (m.set.colors.n, m.set.ids.now) };

    ghost invariant = { λ m. m.len ≡ length (encode_set m.set.colors.n m.set.ids.now) };
}

// How many bytes the payload of a set has. The ids absent from it are in `list`, where there is one.
pub(crate) fn payload_len(set: ColorSet, list: Option<ColorSet>) -> u32
    requires { AbsentIn set.colors.n set.ids.now list }
    ensures { result ≡ length (encode_set set.entry.colors.n set.entry.ids.now) }
{
    crate::sets::set_len(set, list).div_ceil(8) as u32
}

// The record of a set, whose payload has `len` bytes, to the front of `out`. The ids absent from it are in `list`, where there
// is one.
pub(crate) fn write_measured(
    set: ColorSet,
    len: u32,
    list: Option<ColorSet>,
    out: &mut [u8],
) -> Result<usize, Refusal>
    requires listed { AbsentIn set.colors.n set.ids.now list }
    requires long { len ≡ length (encode_set set.colors.n set.ids.now) }
    ensures { (of_written result, out.new) ≡ write_record set.entry.colors.n set.entry.ids.now out.old }
{
    let at = crate::prefix::varint_len(len);
    let total = at + len as usize;
    if out.len() < total {
        return Err(Refusal::Space);
    }
    crate::prefix::fill_varint(len, out);
    crate::sets::encode_source_set(&mut out[at..total], set, list);
    Ok(total)
}

impl<'a> Measured<'a> {
    // The colour count is tested before the ids.
    pub fn new(n: u32, ids: &'a [u32]) -> Result<Self, Refusal>
        ensures { result ≡ measured n ids.now }
    {
        let set = ColorSet::new(n, ids)?;
        Ok(Self::of(set))
    }

    // A set measured, without a list of the ids absent from it.
    fn of(set: ColorSet<'a>) -> Self
        ensures { result ≡ (set.entry.colors.n, set.entry.ids.now) }
    {
        let len = payload_len(set, None);
        Self { set, len }
    }

    // How long the record is.
    pub fn record_len(&self) -> usize
        ensures { result ≡ length (record_of self.now.0 self.now.1) }
    {
        crate::prefix::varint_len(self.len) + self.len as usize
    }

    // The record to the front of `out`.
    pub fn write_record(&self, out: &mut [u8]) -> Result<usize, Refusal>
        ensures { (of_written result, out.new) ≡ write_record self.now.0 self.now.1 out.old }
    {
        write_measured(self.set, self.len, None, out)
    }
}
