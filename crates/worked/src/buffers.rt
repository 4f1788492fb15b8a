// The memory of a run.
use shell::fields::{front, split_front};
use shell::lengths::Lengths;
use std::alloc::{AllocError, Global};

// How many places a buffer of bytes has, and one of words or ids.
pub(crate) const BYTES: usize = 64;

pub(crate) const WORDS: usize = 16;

// A buffer, of which the front is lent to the calls: only as much as a case asks for.
#[derive(Clone, Debug, PartialEq, Eq, Drop)]
pub(crate) struct Buffer<T> {
    pub places: Vec<T>,
    pub lent: usize,
    // What each place held at first, so that a change shows.
    fill: T,
}

impl<T: Copy + PartialEq + From<u8>> Buffer<T> {
    pub(crate) fn filled(
        alloc: Global,
        count: usize,
        fill: u8,
        lent: usize,
    ) -> Result<Self, AllocError> {
        let fill = T::from(fill);
        let mut places = Vec::new(alloc);
        places.resize(count, fill)?;
        Ok(Buffer { places, lent, fill })
    }

    pub(crate) fn front(&self) -> &[T] {
        front(&self.places, self.lent)
    }

    pub(crate) fn front_mut(&mut self) -> &mut [T] {
        split_front(&mut self.places, self.lent).0
    }

    // Writes one place, where the buffer has it.
    pub(crate) fn put(&mut self, place: usize, value: T) {
        if let Some(to) = self.places.get_mut(place) {
            *to = value;
        }
    }

    // The first `count` places; those behind them are let go.
    pub(crate) fn into_front(self, count: usize) -> Vec<T> {
        let mut places = self.places;
        places.truncate(count);
        places
    }

    // Whether each place from `start` on is as it was at first.
    pub(crate) fn is_fresh_from(&self, start: usize) -> bool {
        self.places
            .iter()
            .skip(start)
            .all(|place| *place == self.fill)
    }
}

// Those of a store: the record file with its index, the open unitig with the piece as sent, the run file with the unitig table.
#[derive(Clone, Debug, PartialEq, Eq, Drop)]
pub(crate) struct Buffers {
    pub records: Buffer<u8>,
    pub index: Buffer<u64>,
    pub opened: Buffer<u64>,
    pub held: Buffer<u64>,
    pub runs: Buffer<u8>,
    pub table: Buffer<u64>,
}

impl Buffers {
    // With 9 at each place, and so much of each lent.
    pub(crate) fn of(alloc: Global, lent: Lengths) -> Result<Self, AllocError> {
        Ok(Buffers {
            records: Buffer::filled(alloc, BYTES, 9, lent.records)?,
            index: Buffer::filled(alloc, WORDS, 9, lent.index)?,
            opened: Buffer::filled(alloc, WORDS, 9, lent.opened)?,
            held: Buffer::filled(alloc, WORDS, 9, lent.held)?,
            runs: Buffer::filled(alloc, BYTES, 9, lent.runs)?,
            table: Buffer::filled(alloc, WORDS, 9, lent.table)?,
        })
    }
}

// What an output of a case holds at each place at first.
pub(crate) const EIGHT: u8 = 8;
