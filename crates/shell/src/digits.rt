// A number as decimal digits. `as`, since there is no `From` from u32 to usize, and a digit fits a byte, for which `try_from` would add a case
// that can't come.
ghost use Rattle.std.specs.Prelude.{◌≡◌, ◌<◌, ◌≤◌, length, take};
ghost use Rattle.shell.specs.Digits.{hex_digit_ascii, last_digits, IsDigitCount};

// '0' to '9', then 'a' to 'f'. std's `char::from_digit` answers with an Option of a char, which would be unwrapped and cut back to a byte.
pub(crate) fn glyph(d: u8) -> u8
    requires { d < 16 }
    ensures { result ≡ hex_digit_ascii d }
{
    if d < 10 { b'0' + d } else { b'a' - 10 + d }
}

// How many digits a number takes.
fn digit_count(n: u64) -> usize
    ensures { IsDigitCount 10 1 n result }
{
    n.checked_ilog10().unwrap_or(0) as usize + 1
}

// The last digits of a number, as many as a buffer holds. Written here and not by `write!`, since the contract is over the bytes of the buffer,
// and by index, since no clause says what a slice holds after its `iter_mut().rev()`.
fn write_digits(n: u64, out: &mut [u8])
    ensures { out.new ≡ last_digits 10 (length out.old) n }
{
    let mut rest = n;
    for i in (0..out.len()).rev() {
        out[i] = glyph((rest % 10) as u8);
        rest /= 10;
    }
}

// The digits of a number, no more than it takes, at the front of a buffer; answers how many there are.
pub(crate) fn decimal(n: u64, out: &mut [u8; 20]) -> usize
    ensures within { result ≤ length out.new }
    ensures fewest { IsDigitCount 10 1 n result }
    ensures digits { take result out.new ≡ last_digits 10 result n }
{
    let k = digit_count(n);
    write_digits(n, &mut out[..k]);
    k
}
