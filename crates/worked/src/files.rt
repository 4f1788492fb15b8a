// Records, indexes and run bytes, into outputs that hold 8 at each place.
use crate::args::{StepError, bytes, list, number, size};
use crate::bench::Bench;
use crate::buffers::{BYTES, Buffer, EIGHT, WORDS};
use crate::replies::{Reply, Said};
use base::Refusal;
use codec::{index as indexes, records};
use shell::fields::front;
use shell::words::Words;
use std::alloc::{AllocError, Global};

// The answer of a call and what it wrote to an output: `count` places, which with the answer are what `said` makes of them.
fn told<T, A, C, S>(answer: Result<A, Refusal>, output: Buffer<T>, count: C, said: S) -> Reply
where
    T: Copy + PartialEq + From<u8>,
    A: Copy,
    C: FnOnce(A) -> usize,
    S: FnOnce(A, Vec<T>) -> Said,
    requires counts { C.IsAlwaysCallable count }
    requires says { S.IsAlwaysCallable said }
{
    let end = answer.map_or(0, count);
    let kept = output.is_fresh_from(end);
    let written = output.into_front(end);
    Reply::Called {
        answer: answer.map(|value| said(value, written)),
        kept,
    }
}

// encode N ROOM [ID..]
pub(crate) fn encode(alloc: Global, mut words: Words<'_>) -> Result<Reply, StepError> {
    let colors = number(&mut words).unwrap_or(0);
    let room = size(&mut words)?;
    let ids: Vec<u32> = list(alloc, words)?;
    let mut space: Buffer<u8> = Buffer::filled(alloc, BYTES, EIGHT, room)?;
    let answer = records::write_color_record(colors, &ids, space.front_mut());
    Ok(told(
        answer,
        space,
        |len| len,
        |len, bytes| Said::Bytes { count: len, bytes },
    ))
}

// decode N ROOM HEX
pub(crate) fn decode(alloc: Global, mut words: Words<'_>) -> Result<Reply, StepError> {
    let colors = number(&mut words).unwrap_or(0);
    let room = size(&mut words)?;
    let input = bytes(alloc, &mut words)?;
    let mut out: Buffer<u32> = Buffer::filled(alloc, WORDS, EIGHT, room)?;
    let answer = records::read_color_record(colors, &input, out.front_mut());
    Ok(told(
        answer,
        out,
        |given| given.items,
        |given, ids| Said::Ids {
            ids,
            of: Some(given.bytes),
        },
    ))
}

// pack ROOM OFFSET:COORDINATE..
pub(crate) fn pack(alloc: Global, mut words: Words<'_>) -> Result<Reply, StepError> {
    let room = size(&mut words)?;
    let list: Vec<u64> = list(alloc, words)?;
    let mut space: Buffer<u8> = Buffer::filled(alloc, BYTES, EIGHT, room)?;
    let answer = runs::bytes::write_unitig_color_runs(&list, space.front_mut());
    Ok(told(
        answer,
        space,
        |len| len,
        |len, bytes| Said::Bytes { count: len, bytes },
    ))
}

impl Bench {
    // index COUNT ROOM HEX, into the output of the run lists
    pub(crate) fn index(&mut self, mut words: Words<'_>) -> Result<Reply, StepError> {
        let count = size(&mut words).unwrap_or(0);
        let room = size(&mut words)?;
        let input = bytes(self.alloc, &mut words)?;
        self.refill(room)?;
        let answer = indexes::index_worker(&input, count, self.out.front_mut());
        let end = answer.map_or(0, |_| count.saturating_add(1));
        let kept = self.out.is_fresh_from(end);
        let entries = front(&self.out.places, end).to_vec(self.alloc)?;
        Ok(Reply::Called {
            answer: answer.map(|_| Said::Entries(entries)),
            kept,
        })
    }

    // unpack ROOM HEX, into that output too
    pub(crate) fn unpack(&mut self, mut words: Words<'_>) -> Result<Reply, StepError> {
        let room = size(&mut words)?;
        let input = bytes(self.alloc, &mut words)?;
        self.refill(room)?;
        let answer = runs::bytes::read_unitig_color_runs(&input, self.out.front_mut());
        let kept = self
            .out
            .is_fresh_from(answer.map_or(0, |given| given.items));
        let bytes = answer.ok().map(|given| given.bytes);
        Ok(self.told(answer.map(|given| given.items), bytes, kept)?)
    }
}
