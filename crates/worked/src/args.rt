// The words of a step as its arguments.
use crate::buffers::{BYTES, WORDS};
use shell::hexes;
use shell::lists::{Word, narrow};
use shell::reasons::Fault;
use shell::words::Words;
use std::alloc::{AllocError, Global};

// Why a step has no answer.
#[derive(Debug, Drop)]
pub(crate) enum StepError {
    // It isn't written as a step.
    Words(Fault),
    Memory(AllocError),
}

impl From<Fault> for StepError {
    fn from(fault: Fault) -> Self {
        StepError::Words(fault)
    }
}

impl From<AllocError> for StepError {
    fn from(error: AllocError) -> Self {
        StepError::Memory(error)
    }
}

// The number that stands next, or the run OFFSET:COORDINATE as one number of 64 bits.
fn next_wide(words: &mut Words<'_>) -> Result<u64, Fault> {
    let mut ahead = *words;
    if let Ok(Some(run)) = ahead.value::<u64>() {
        *words = ahead;
        return Ok(run);
    }
    let number: Option<u32> = words.value()?;
    Ok(u64::from(number.ok_or(Fault::Missing)?))
}

// The same. Where there is none, the next number is read from the step's first word again. Only its last number says whether a step is one: for
// any other that can't be read 0 is taken.
pub(crate) fn wide(words: &mut Words<'_>) -> Result<u64, Fault> {
    let number = next_wide(words);
    if number.is_err() {
        words.at = 0;
    }
    number
}

// The same, cut to 32 bits: a case may write any number.
pub(crate) fn number(words: &mut Words<'_>) -> Result<u32, Fault> {
    Ok(narrow(wide(words)?))
}

// The same as a count or a place: `as`, since there is no `From` from u64 to usize.
pub(crate) fn size(words: &mut Words<'_>) -> Result<usize, Fault> {
    Ok(wide(words)? as usize)
}

// Whether a 1 stands next.
pub(crate) fn flag(words: &mut Words<'_>) -> Result<bool, Fault> {
    Ok(wide(words)? == 1)
}

// The ids or runs up to the end of the step; none where one can't be read, or there are too many. The libraries allocate nothing, so `sessions` has
// one of its own.
pub(crate) fn list<T>(alloc: Global, words: Words<'_>) -> Result<Vec<T>, AllocError>
where
    T: Word + From<u8>,
{
    let mut items = Vec::new(alloc);
    items.resize(WORDS, T::from(0))?;
    let count = words.values(&mut items).unwrap_or(0);
    items.truncate(count);
    Ok(items)
}

// The bytes that the next word says in hexadecimal; none where it doesn't, or says too many.
pub(crate) fn bytes(alloc: Global, words: &mut Words<'_>) -> Result<Vec<u8>, AllocError> {
    let text = words.next().unwrap_or(b"");
    let mut bytes = vec![in alloc; 0u8; BYTES]?;
    let count = hexes::unhex(text, &mut bytes).unwrap_or(0);
    bytes.truncate(count);
    Ok(bytes)
}
