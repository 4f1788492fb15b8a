// The words of a command as its arguments.
use shell::reasons::Fault;
use shell::words::Words;
use store::state::Way;

// The next word.
fn word<'a>(words: &mut Words<'a>) -> Result<&'a [u8], Fault> {
    words.next().ok_or(Fault::Missing)
}

// The number that stands next.
pub(crate) fn number(words: &mut Words) -> Result<u32, Fault> {
    words.value::<u32>()?.ok_or(Fault::Missing)
}

// Nothing but the end of the line.
pub(crate) fn end(words: &mut Words) -> Result<(), Fault> {
    match words.next() {
        Some(_) => Err(Fault::Extra),
        None => Ok(()),
    }
}

// The next word, if it is the last.
pub(crate) fn last_word<'a>(words: &mut Words<'a>) -> Result<&'a [u8], Fault> {
    let last = word(words)?;
    end(words)?;
    Ok(last)
}

// forward|reverse
pub(crate) fn is_reversed(words: &mut Words) -> Result<bool, Fault> {
    match word(words)? {
        b"forward" => Ok(false),
        b"reverse" => Ok(true),
        _ => Err(Fault::Way),
    }
}

// line · cycle PIVOT
pub(crate) fn way(words: &mut Words) -> Result<Way, Fault> {
    let way = match word(words)? {
        b"line" => Way::Line,
        b"cycle" => Way::Cycle {
            pivot: number(words)?,
        },
        _ => return Err(Fault::Way),
    };
    end(words)?;
    Ok(way)
}
