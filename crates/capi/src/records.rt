// Records and their index. A count of 64 bits becomes a usize by `as`, since there is no `From` for it.
ghost use Rattle.std.specs.Prelude.{◌≡◌};
ghost use Rattle.codec.specs.Records.{write_record, read_into};
ghost use Rattle.codec.specs.Index.{make_index};
ghost use Rattle.capi.specs.Exports.{plain, one, two};

use crate::answers::{tell, tell_given};
use base::code_of;

// The record of a set to the front of `out`; `written` bytes.
pub fn rf_write_record(n: u32, ids: &[u32], out: &mut [u8], written: &mut u64) -> u32
    ensures { (result, written.new, out.new) ≡ one (write_record n ids.now out.old) written.old }
{
    tell(codec::records::write_color_record(n, ids, out), written)
}

// The set at the front of `input` to the front of `ids`; `given` ids, from `taken` bytes.
pub fn rf_read_record(
    n: u32,
    input: &[u8],
    ids: &mut [u32],
    given: &mut u64,
    taken: &mut u64,
) -> u32
    ensures { (result, given.new, taken.new, ids.new) ≡ two (read_into n input.now ids.old) given.old taken.old }
{
    tell_given(
        codec::records::read_color_record(n, input, ids),
        given,
        taken,
    )
}

// Where each of the first `count` records begins, and where the last one ends.
pub fn rf_make_index(bytes: &[u8], count: u64, out: &mut [u64]) -> u32
    ensures { (result, out.new) ≡ plain (make_index count bytes.now out.old) }
{
    code_of(&codec::index::index_worker(bytes, count as usize, out))
}
