// A session as its four lines say it. Numbers become lengths by `as`, since there is no `From` from u32 to usize.
use shell::lengths::Lengths;
use shell::lists::Word;
use shell::words::Words;
use std::alloc::{AllocError, Global};

// How many bytes a record file or a run file has at most, and how many words another buffer.
const MOST_BYTES: usize = 65536;

const MOST_WORDS: usize = 8192;

// How many numbers the calls have at most, six for each of 4,096 calls, and how many ids and runs there are.
const MOST_NUMBERS: usize = 24576;

const MOST_ITEMS: usize = 65536;

// The eight numbers of the first line. What a session's line doesn't say is as the session before left it.
#[derive(Clone, Copy, Debug, Default)]
pub(crate) struct Head {
    numbers: [u32; 8],
}

impl Head {
    // The words of the first line, up to one that can't be read, or the eighth.
    pub(crate) fn read(&mut self, lines: &[&[u8]]) {
        let line = lines.first().copied().unwrap_or(b"");
        let _ = Words::of(line).values(&mut self.numbers);
    }
}

#[derive(Debug, Drop)]
pub(crate) struct Session {
    pub colors: u32,
    pub worker: u32,
    pub lengths: Lengths,
    // Six numbers for each call.
    pub calls: Vec<u32>,
    // The ids of all sets.
    pub ids: Vec<u32>,
    // The runs of all pieces.
    pub pieces: Vec<u64>,
}

// What the words of a line say. A line that isn't there, can't be read, or says more than `most` has nothing. The libraries allocate nothing, so
// `worked` has one of its own.
fn list<T>(alloc: Global, line: Option<&&[u8]>, most: usize) -> Result<Vec<T>, AllocError>
where
    T: Word + From<u8>,
{
    let line = line.copied().unwrap_or(b"");
    // No place is filled that the line's words can't take: a short session would spend its time on that. Words are parted by a byte at least.
    let mut items = Vec::new(alloc);
    items.resize(most.min(line.len() / 2 + 1), T::from(0))?;
    let count = Words::of(line).values(&mut items).unwrap_or(0);
    items.truncate(count);
    Ok(items)
}

impl Session {
    pub(crate) fn of(alloc: Global, head: &Head, lines: &[&[u8]]) -> Result<Self, AllocError> {
        let [colors, worker, records, index, opened, held, runs, table] = head.numbers;
        Ok(Session {
            colors,
            worker,
            lengths: Lengths {
                records: MOST_BYTES.min(records as usize),
                index: MOST_WORDS.min(index as usize),
                opened: MOST_WORDS.min(opened as usize),
                held: MOST_WORDS.min(held as usize),
                runs: MOST_BYTES.min(runs as usize),
                table: MOST_WORDS.min(table as usize),
            },
            calls: list(alloc, lines.get(1), MOST_NUMBERS)?,
            ids: list(alloc, lines.get(2), MOST_ITEMS)?,
            pieces: list(alloc, lines.get(3), MOST_ITEMS)?,
        })
    }
}
