// A run as OFFSET:COORDINATE, packed into one word: the low 24 bits the offset, the high 40 the coordinate.
ghost use Rattle.std.specs.Prelude.{◌≡◌, ◌==◌};
ghost use Rattle.std.specs.List.{position};
ghost use Rattle.shell.specs.Pairs.{pair_of};

use crate::numbers::{NumberError, number_to};

// Where the first ':' stands.
fn colon_in(text: &[u8]) -> Option<usize>
    ensures { result ≡ position (λ b. b == 58) text.now }
{
    text.iter().position(|b| *b == b':')
}

pub fn pair(text: &[u8]) -> Result<u64, NumberError>
    ensures { result ≡ pair_of text.now }
{
    let colon = colon_in(text).ok_or(NumberError::Bad)?;
    let offset = number_to(&text[..colon], 0xff_ffff)?;
    let coordinate = number_to(&text[colon + 1..], 0xff_ffff_ffff)?;
    Ok(offset + 0x100_0000 * coordinate)
}
