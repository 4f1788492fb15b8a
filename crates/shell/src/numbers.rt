// Decimal numbers.
ghost use Rattle.std.specs.Prelude.{◌≡◌, ◌<◌, ◌≤◌, IfOk, IfSome};
ghost use Rattle.shell.specs.Numbers.{digit_of, decimal_of, fault_of_number};

use crate::reasons::Fault;

// Why a text is no number.
#[derive(Clone, Copy, Debug, PartialEq, Eq)]
pub enum NumberError {
    // No digits, or something else among them.
    Bad,
    // More than its type holds.
    Large,
}

impl NumberError {
    // What is wrong with the line: `bad`, where the word is no number at all.
    pub(crate) fn fault(self, bad: Fault) -> Fault
        ensures { result ≡ fault_of_number bad self }
    {
        match self {
            NumberError::Bad => bad,
            NumberError::Large => Fault::Large,
        }
    }
}

// The decimal digit that a byte says: std's, in the specification's words. hexes.rt has another, since those have a definition for each base.
#[tactic(auto, using(crate::proofs::Laws::Numbers::digit_is))]
fn digit_of(b: u8) -> Option<u32>
    ensures said { result ≡ digit_of b }
    ensures within { IfSome result (λ d. d < 10) }
{
    char::from(b).to_digit(10)
}

// The number that a text says, if it is at most `most`. Not by std's `parse`: it takes a `+` in front, reads a str, and knows no bound but its type's.
pub(crate) fn number_to(text: &[u8], most: u64) -> Result<u64, NumberError>
    requires { most ≤ 1000000000000000000 }
    ensures said { result ≡ decimal_of most text.now }
    ensures within { IfOk result (λ n. n ≤ most) }
{
    if text.is_empty() {
        return Err(NumberError::Bad);
    }
    let mut value: u64 = 0;
    for b in text {
        let digit = digit_of(*b).ok_or(NumberError::Bad)?;
        value = value * 10 + u64::from(digit);
        if most < value {
            return Err(NumberError::Large);
        }
    }
    Ok(value)
}

// A number of 32 bits. `as`, since it was read as one that fits: `try_from` would add a case that can't come.
pub fn number_in(text: &[u8]) -> Result<u32, NumberError>
    ensures { result ≡ decimal_of 4294967295 text.now }
{
    Ok(number_to(text, 4294967295)? as u32)
}
