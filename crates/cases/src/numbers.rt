// The numbers of a line.
ghost use Rattle.std.specs.Prelude.{◌≡◌, IfOk, length, vec_len};

use shell::fields::front;
use shell::lists::narrow;
use std::alloc::{AllocError, Global};

// How many items a list has at most: what a line has more is left out, and its answer then differs.
pub(crate) const MOST_ITEMS: usize = 2048;

// Two lists, and what stands before them.
const MOST_NUMBERS: usize = 4107;

// A type that numbers of a line are cut to: a line may have any number, and a large one is cut on purpose.
pub(crate) trait Narrow: Copy {
    fn of(number: u64) -> Self;
}

impl Narrow for u8 {
    fn of(number: u64) -> u8 {
        (number & 0xff) as u8
    }
}

impl Narrow for u32 {
    fn of(number: u64) -> u32 {
        narrow(number)
    }
}

impl Narrow for u64 {
    fn of(number: u64) -> u64 {
        number
    }
}

// What a hexadecimal digit says. Small letters are none: std's `to_digit` takes them.
fn digit_of(byte: u8) -> Option<u8> {
    match byte {
        b'0'..=b'9' => Some(byte - b'0'),
        b'A'..=b'F' => Some(byte - b'A' + 10),
        _ => None,
    }
}

// What the digits say, the last 16 of them.
fn value_of(digits: &[u8]) -> u64 {
    digits.iter().fold(0, |value, digit| {
        (value << 4) | u64::from(digit_of(*digit).unwrap_or(0))
    })
}

// The numbers of a line, in hexadecimal. Each byte that is no digit ends one, as the line's end does; what nothing ends is no number.
pub(crate) fn numbers_of(alloc: Global, line: &[u8]) -> Result<Vec<u64>, AllocError> {
    let mut numbers = Vec::new(alloc);
    for digits in line.split(|byte| digit_of(*byte).is_none()) {
        numbers.push(value_of(digits))?;
    }
    numbers.pop();
    numbers.truncate(MOST_NUMBERS);
    Ok(numbers)
}

// A list that begins with its length, a usize by `as`, since there is no `From` for it from u64; and what stands behind it.
pub(crate) fn list_of(numbers: &[u64]) -> Option<(&[u64], &[u64])> {
    let (count, rest) = numbers.split_first()?;
    rest.split_at_checked(*count as usize)
}

// Numbers as bytes, as ids or as words.
fn narrowed<T: Narrow + Drop>(alloc: Global, numbers: &[u64]) -> Result<Vec<T>, AllocError>
    ensures { IfOk result (λ items. vec_len items ≡ length numbers.now) }
{
    let mut items = Vec::with_capacity(alloc, numbers.len())?;
    for number in numbers {
        items.push(T::of(*number))?;
    }
    Ok(items)
}

// The same of as many as there is room for.
pub(crate) fn fitting<T: Narrow + Drop>(
    alloc: Global,
    numbers: &[u64],
) -> Result<Vec<T>, AllocError> {
    narrowed(alloc, front(numbers, MOST_ITEMS))
}
