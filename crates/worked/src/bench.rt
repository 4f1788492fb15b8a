// What stays from step to step, and a step by its first word.
use crate::args::{StepError, flag, list, number, size};
use crate::buffers::{Buffer, EIGHT, WORDS};
use crate::files;
use crate::replies::Reply;
use crate::state::State;
use shell::fields::part;
use shell::reasons::Fault;
use shell::words::Words;
use std::alloc::{AllocError, Global};
use store::state::Way;

#[derive(Debug, Drop)]
pub(crate) struct Bench {
    pub alloc: Global,
    pub state: State,
    // The output that run lists are written to.
    pub out: Buffer<u64>,
    // The answer of the last step.
    pub reply: Reply,
}

impl Bench {
    pub(crate) fn new(alloc: Global) -> Result<Self, AllocError> {
        Ok(Bench {
            alloc,
            state: State::none(alloc)?,
            out: Buffer::filled(alloc, WORDS, EIGHT, WORDS)?,
            reply: Reply::Done,
        })
    }

    pub(crate) fn step(&mut self, step: &[u8]) -> Result<(), AllocError> {
        self.reply = match self.answer(step) {
            Ok(reply) => reply,
            Err(StepError::Words(_)) => Reply::NoStep,
            Err(StepError::Memory(e)) => return Err(e),
        };
        Ok(())
    }

    // A step by its first word.
    fn answer(&mut self, step: &[u8]) -> Result<Reply, StepError> {
        let mut words = Words::of(step);
        let word = words.next().ok_or(Fault::Missing)?;
        let words = Words::of(part(step, words.at, step.len()));
        match word {
            b"encode" => files::encode(self.alloc, words),
            b"decode" => files::decode(self.alloc, words),
            b"index" => self.index(words),
            b"pack" => files::pack(self.alloc, words),
            b"unpack" => self.unpack(words),
            b"out" => self.list(words),
            b"reverse" => self.reverse(words),
            b"swap" => self.swap(words),
            b"rotate" => self.rotate(words),
            b"append" => self.append(words),
            b"set" => self.set(words),
            b"lend" => self.lend(words),
            b"put" => self.put(words),
            b"view" => self.view(words),
            b"start" => self.start(words),
            b"sets" => self.sets(),
            b"piece" => self.piece(),
            b"unitig" => self.unitig(),
            b"add" => self.add(words),
            b"join" => self.join(words),
            b"close" => self.close(words),
            b"show" => self.show(words),
            _ => Err(StepError::Words(Fault::Unknown)),
        }
    }

    // add NUMBER [ID..]
    fn add(&mut self, mut words: Words<'_>) -> Result<Reply, StepError> {
        let call = number(&mut words)?;
        let ids: Vec<u32> = list(self.alloc, words)?;
        Ok(self.state.add(call, &ids)?)
    }

    // join NUMBER N 0|1 OFFSET:COORDINATE.., 1 where the piece is reversed
    fn join(&mut self, mut words: Words<'_>) -> Result<Reply, StepError> {
        let call = number(&mut words).unwrap_or(0);
        let n = number(&mut words).unwrap_or(0);
        let reversed = flag(&mut words)?;
        let piece: Vec<u64> = list(self.alloc, words)?;
        Ok(self.state.join(call, n, reversed, &piece)?)
    }

    // close NUMBER: a line; close NUMBER PIVOT: a cycle
    fn close(&mut self, mut words: Words<'_>) -> Result<Reply, StepError> {
        let call = number(&mut words)?;
        let way = number(&mut words).map_or(Way::Line, |pivot| Way::Cycle { pivot });
        Ok(self.state.close(call, way)?)
    }

    // show UNITIG VERTEX ROOM
    fn show(&mut self, mut words: Words<'_>) -> Result<Reply, StepError> {
        let unitig = number(&mut words).unwrap_or(0);
        let vertex = number(&mut words).unwrap_or(0);
        let room = size(&mut words)?;
        Ok(self.state.show(self.alloc, unitig, vertex, room)?)
    }
}
