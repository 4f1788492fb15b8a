// Record files of the reference, each beside each: whether the one is the beginning of the other, in bytes and in sets.
// A line of the file `files` is a record file: its colour count, how many sets it holds, how many bytes, the bytes, and the
// sets, each as its length and its ids. The work grows with the square of the lines. Counts become a usize
// by `as`, since there is no `From` for it from u64.
use crate::numbers::{MOST_ITEMS, Narrow, fitting, list_of, numbers_of};
use capi::records;
use shell::fields::is_line_end;
use std::alloc::{AllocError, Global};
use std::io;

// What two files show.
#[derive(Clone, Copy, Debug, PartialEq, Eq)]
enum Pair {
    // Of one colour count: the one is the beginning of the other in bytes and in sets, in neither, or in one of them alone.
    Beginning,
    Neither,
    Alone,
    // Of two colour counts: equal bytes and other sets, or not so.
    OtherSets,
    Unrelated,
}

// How many pairs there were of one colour count, and of each kind worth telling. They are counted as they are met: kept, they
// would take memory that grows with the square of the lines.
#[derive(Clone, Copy, Debug, Default)]
struct Seen {
    of_one_count: u64,
    beginnings: u64,
    alone: u64,
    other_sets: u64,
}

impl Seen {
    fn count(&mut self, pair: Pair) {
        match pair {
            Pair::Beginning => self.beginnings = self.beginnings.saturating_add(1),
            Pair::Alone => self.alone = self.alone.saturating_add(1),
            Pair::OtherSets => self.other_sets = self.other_sets.saturating_add(1),
            Pair::Neither | Pair::Unrelated => {}
        }
        if matches!(pair, Pair::Beginning | Pair::Neither | Pair::Alone) {
            self.of_one_count = self.of_one_count.saturating_add(1);
        }
    }
}

#[derive(Debug, Drop)]
struct File {
    colors: u64,
    count: u64,
    // Each byte as a number.
    bytes: Vec<u64>,
    // The sets, each as its length and its ids.
    sets: Vec<u64>,
}

impl File {
    // The file of a line, none where the line can't be read.
    fn of(alloc: Global, line: &[u8]) -> Result<Option<File>, AllocError> {
        let numbers = numbers_of(alloc, line)?;
        let [colors, count, rest @ ..] = numbers.as_slice() else {
            return Ok(None);
        };
        let Some((bytes, sets)) = list_of(rest) else {
            return Ok(None);
        };
        Ok(Some(File {
            colors: *colors,
            count: *count,
            bytes: bytes.to_vec(alloc)?,
            sets: sets.to_vec(alloc)?,
        }))
    }

    // So many sets, read one after another, as many as can be read; bytes behind them count as one set more.
    fn read_sets(&self, alloc: Global) -> Result<Vec<u64>, AllocError> {
        let colors = u32::of(self.colors);
        let bytes: Vec<u8> = fitting(alloc, &self.bytes)?;
        let mut ids = vec![in alloc; 0u32; MOST_ITEMS]?;
        let mut sets = Vec::new(alloc);
        let mut rest = bytes.as_slice();
        for _ in 0..self.count {
            let mut given = 0;
            let mut taken = 0;
            let code = records::rf_read_record(colors, rest, &mut ids, &mut given, &mut taken);
            if code != 0 {
                return Ok(sets);
            }
            sets.push(given)?;
            for id in ids.iter().take(given as usize) {
                sets.push(u64::from(*id))?;
            }
            rest = rest.get(taken as usize..).unwrap_or(&[]);
        }
        if !rest.is_empty() {
            sets.push(0)?;
        }
        Ok(sets)
    }

    // What it shows beside another.
    fn beside(&self, other: &File) -> Pair {
        if self.colors != other.colors {
            return if self.bytes == other.bytes && self.sets != other.sets {
                Pair::OtherSets
            } else {
                Pair::Unrelated
            };
        }
        let in_bytes = other.bytes.starts_with(&self.bytes);
        let in_sets = other.sets.starts_with(&self.sets);
        match (in_bytes, in_sets) {
            (true, true) => Pair::Beginning,
            (false, false) => Pair::Neither,
            _ => Pair::Alone,
        }
    }
}

// The file of each line.
fn files_of(alloc: Global, text: &[u8]) -> Result<Vec<Option<File>>, AllocError> {
    let mut files = Vec::new(alloc);
    for line in text.split_inclusive(|byte| is_line_end(*byte)) {
        files.push(File::of(alloc, line)?)?;
    }
    Ok(files)
}

// How many lines are no file whose bytes are its sets.
fn misread(alloc: Global, files: &[Option<File>]) -> Result<u64, AllocError> {
    // Counted here and not by `filter` and `count`: `?` stands in the loop.
    let mut misread = 0u64;
    for file in files {
        let good = match file {
            Some(file) => file.read_sets(alloc)? == file.sets,
            None => false,
        };
        if !good {
            misread = misread.saturating_add(1);
        }
    }
    Ok(misread)
}

// Each file beside every one, in order.
fn pairs_of(files: &[Option<File>]) -> Seen {
    let mut seen = Seen::default();
    for one in files {
        for other in files {
            seen.count(match (one, other) {
                (Some(one), Some(other)) => one.beside(other),
                // a line that is no file is told among those that are alone
                _ => Pair::Alone,
            });
        }
    }
    seen
}

// Every file: that it is read back, and what it shows beside every one.
pub(crate) fn compare_all(rt: &impl Print, alloc: Global, text: &[u8]) -> io::Result<()> {
    let files = files_of(alloc, text)?;
    let misread = misread(alloc, &files)?;
    let seen = pairs_of(&files);
    println!(rt; "{} record files, {misread} misread", files.len())?;
    println!(rt;
        "{} pairs of one colour count: {} where the one is the beginning of the other in bytes and in sets, {} in one of them alone",
        seen.of_one_count, seen.beginnings, seen.alone
    )?;
    println!(rt;
        "{} pairs of two colour counts with equal bytes and other sets",
        seen.other_sets
    )
}
