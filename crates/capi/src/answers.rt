// How an answer crosses to C: a refusal as its number, and each value of a success in the number lent for it. C's numbers have 64 bits: `as`,
// since there is no `From` from usize to u64, and `try_from` would add a case that can't come.
ghost use Rattle.std.specs.Prelude.{◌≡◌};
ghost use Rattle.base.specs.Answers.{of_written, of_given};
ghost use Rattle.capi.specs.Exports.{code, value};

use base::{Given, Refusal, code_of};

// An answer of one number.
pub(crate) fn tell(answer: Result<usize, Refusal>, told: &mut u64) -> u32
    ensures { (result ≡ code (of_written answer)) × (told.new ≡ value 0 (of_written answer) told.old) }
{
    if let Ok(n) = answer {
        *told = n as u64;
    }
    code_of(&answer)
}

// An answer of two: items given, and bytes taken.
pub(crate) fn tell_given(answer: Result<Given, Refusal>, given: &mut u64, taken: &mut u64) -> u32
    ensures { (result ≡ code (of_given answer)) × (given.new ≡ value 0 (of_given answer) given.old) × (taken.new ≡ value 1 (of_given answer) taken.old) }
{
    if let Ok(read) = answer {
        *given = read.items as u64;
        *taken = read.bytes as u64;
    }
    code_of(&answer)
}
