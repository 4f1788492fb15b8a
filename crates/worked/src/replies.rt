// What a step answers, as text: ok VALUE.. or refused K, and whether something was altered.
use base::Refusal;
use runs::words;
use std::fmt;

// What comes with a success.
#[derive(Debug, Drop)]
pub(crate) enum Said {
    // Nothing but that it is done.
    Made,
    Value(u64),
    // Ids, and how many bytes they were read from where they were read from bytes.
    Ids {
        ids: Vec<u32>,
        of: Option<usize>,
    },
    // So many bytes, as far as the buffer goes.
    Bytes {
        count: usize,
        bytes: Vec<u8>,
    },
    Entries(Vec<u64>),
    // So many runs, as far as the buffer goes, and how many bytes they were read from, or how many vertices they have.
    Runs {
        count: usize,
        runs: Vec<u64>,
        of: Option<usize>,
    },
}

#[derive(Debug, Drop)]
pub(crate) enum Reply {
    // Nothing to tell of.
    Done,
    // A step that isn't written as one.
    NoStep,
    // What a call answered, and whether nothing was altered but what has to be.
    Called {
        answer: Result<Said, Refusal>,
        kept: bool,
    },
}

// How many there are, and of how many.
fn counted<W: fmt::Write>(
    f: &mut fmt::Formatter<W>,
    items: usize,
    of: Option<usize>,
) -> fmt::Result {
    match of {
        Some(of) => write!(f, "ok {items} of {of}:"),
        None => write!(f, "ok {items}:"),
    }
}

impl fmt::Display for Said {
    fn fmt<W: fmt::Write>(&self, f: &mut fmt::Formatter<W>) -> fmt::Result {
        match self {
            Said::Made => write!(f, "ok"),
            Said::Value(value) => write!(f, "ok {value}"),
            Said::Ids { ids, of } => {
                counted(f, ids.len(), *of)?;
                ids.iter().try_for_each(|id| write!(f, " {id}"))
            }
            Said::Bytes { count, bytes } => {
                counted(f, *count, None)?;
                bytes.iter().try_for_each(|byte| write!(f, " {byte:02X}"))
            }
            Said::Entries(entries) => {
                write!(f, "ok:")?;
                entries.iter().try_for_each(|entry| write!(f, " {entry}"))
            }
            Said::Runs { count, runs, of } => {
                counted(f, *count, *of)?;
                runs.iter().try_for_each(|run| {
                    write!(f, " {}:{}", words::offset(*run), words::coordinate(*run))
                })
            }
        }
    }
}

impl fmt::Display for Reply {
    fn fmt<W: fmt::Write>(&self, f: &mut fmt::Formatter<W>) -> fmt::Result {
        match self {
            Reply::Done => write!(f, "done"),
            Reply::NoStep => write!(f, "no such step"),
            Reply::Called { answer, kept } => {
                match answer {
                    Ok(said) => write!(f, "{said}")?,
                    Err(refusal) => write!(f, "refused {}", u32::from(*refusal))?,
                }
                write!(f, ", {}", if *kept { "kept" } else { "altered" })
            }
        }
    }
}
