// The outer edge of the record reader: a payload and a bit place in it, over the readers of `codes`. The form is
// the specification's: a reader here, and plain parameters in the core, which therefore takes no `BitReader`.
ghost use Rattle.std.specs.Prelude.{◌≡◌, ◌<◌, ◌^◌, length};
ghost use Rattle.codec.specs.Codes.{read_delta};
ghost use Rattle.codec.specs.Inside.Places.{ReadCodeAt};

use crate::codes::ReadCode;

// The bytes of a payload, and the place of the next bit.
#[derive(Drop)]
pub(crate) struct BitReader<'a> {
    pub(crate) bytes: &'a [u8],
    pub(crate) position: usize,
}

impl<'a> BitReader<'a> {
    // A reader at the first bit.
    pub(crate) fn new(bytes: &'a [u8]) -> Self
        ensures { (result.bytes ≡ bytes.entry) × (result.position ≡ 0) }
    {
        Self { bytes, position: 0 }
    }
}

// The value of the delta code at the reader's place.
pub(crate) fn read_delta<'a>(input: BitReader<'a>) -> Option<ReadCode>
    requires { length input.bytes.now < 2 ^ 60 }
    ensures { ReadCodeAt read_delta input.entry.bytes.now input.entry.position result }
{
    crate::codes::read_delta(input.bytes, input.position)
}

// The value of the delta code that a payload begins with. Its parameter is a plain slice, so whoever
// calls it needs nothing of a reader.
pub(crate) fn first_delta(payload: &[u8]) -> Option<ReadCode>
    requires { length payload.now < 2 ^ 60 }
    ensures { ReadCodeAt read_delta payload.now 0 result }
{
    read_delta(BitReader::new(payload))
}
