// Bytes as hexadecimal digits, two a byte.
ghost use Rattle.std.specs.Prelude.{◌≡◌, ◌<◌, IfSome};
ghost use Rattle.shell.specs.Hexes.{digit_of, unhex_at};

use crate::reasons::Fault;

// The hexadecimal digit that a byte says: std's, in the specification's words.
#[tactic(auto, using(crate::proofs::Laws::Hexes::digit_is))]
fn digit_of(b: u8) -> Option<u32>
    ensures said { result ≡ digit_of b }
    ensures within { IfSome result (λ d. d < 16) }
{
    char::from(b).to_digit(16)
}

// The bytes that a text says, to the front of `out`; answers how many they are. `as`: two digits fit a byte, for which `try_from` would
// add a case that can't come.
pub fn unhex(text: &[u8], out: &mut [u8]) -> Result<usize, Fault>
    ensures { (result, out.new) ≡ unhex_at text.now 0 out.old }
{
    for (k, digits) in text.chunks(2).enumerate() {
        let [high, low] = digits else {
            return Err(Fault::Hex);
        };
        let high = digit_of(*high).ok_or(Fault::Hex)?;
        let low = digit_of(*low).ok_or(Fault::Hex)?;
        // By index: no clause says what a slice holds after its `get_mut`.
        if out.len() <= k {
            return Err(Fault::Many);
        }
        out[k] = (high * 16 + low) as u8;
    }
    Ok(text.len() / 2)
}
