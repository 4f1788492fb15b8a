// Text behind text in a buffer.
ghost use Rattle.std.specs.Prelude.{◌≡◌, [], ◌∷◌, ◌<◌, ◌/◌, ◌%◌};
ghost use Rattle.shell.specs.Digits.{hex_digit_ascii};
ghost use Rattle.shell.specs.Texts.{put_at, Printed};

use crate::digits::{decimal, glyph};

// The text from `at` on, as much of it as there is space for; answers where it ends. Not by `write!`: the contract is over the bytes of the
// buffer. Place and buffer stay two parameters, here and in the functions over it: a struct that holds a lent buffer would be made anew at each call.
pub fn put(text: &[u8], at: usize, out: &mut [u8]) -> usize
    ensures { (result, out.new) ≡ put_at text.now at out.old }
{
    if out.len() <= at {
        return at;
    }
    let n = text.len().min(out.len() - at);
    out[at..at + n].copy_from_slice(&text[..n]);
    at + n
}

// The decimal digits of a number.
pub fn put_decimal(n: u64, at: usize, out: &mut [u8]) -> usize
    ensures { Printed n at out.old result out.new }
{
    let mut digits = [0u8; 20];
    let k = decimal(n, &mut digits);
    put(&digits[..k], at, out)
}

// Two hexadecimal digits of a byte.
pub fn put_byte(b: u8, at: usize, out: &mut [u8]) -> usize
    ensures { (result, out.new) ≡ put_at (hex_digit_ascii (b / 16) ∷ hex_digit_ascii (b % 16) ∷ []) at out.old }
{
    put(&[glyph(b / 16), glyph(b % 16)], at, out)
}
