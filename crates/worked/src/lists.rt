// Run lists, into an output that holds 8 at each place. A vertex count becomes a usize by `as`, since there is no `From` for it from u32.
use crate::args::{StepError, flag, list, number, size};
use crate::bench::Bench;
use crate::buffers::{Buffer, EIGHT, WORDS};
use crate::replies::{Reply, Said};
use base::Refusal;
use runs::{append, reverse, rotate};
use shell::fields::front;
use shell::words::Words;
use std::alloc::AllocError;
use std::ops::Range;

// Whether two lists are the same but for some places.
fn same_outside(range: Range<usize>, before: &[u64], after: &[u64]) -> bool {
    before
        .iter()
        .zip(after)
        .enumerate()
        .all(|(place, (was, is))| range.contains(&place) || was == is)
}

impl Bench {
    // Eights in each place of the output, of which so much is lent.
    pub(crate) fn refill(&mut self, lent: usize) -> Result<(), AllocError> {
        self.out = Buffer::filled(self.alloc, WORDS, EIGHT, lent)?;
        Ok(())
    }

    // So many runs at the front of the output, and whether nothing was altered but what has to be.
    pub(crate) fn told(
        &self,
        answer: Result<usize, Refusal>,
        of: Option<usize>,
        kept: bool,
    ) -> Result<Reply, AllocError> {
        let count = answer.unwrap_or(0);
        let runs = front(&self.out.places, count).to_vec(self.alloc)?;
        Ok(Reply::Called {
            answer: answer.map(|_| Said::Runs { count, runs, of }),
            kept,
        })
    }

    // out OFFSET:COORDINATE..: an output that holds these runs.
    pub(crate) fn list(&mut self, words: Words<'_>) -> Result<Reply, StepError> {
        self.refill(WORDS)?;
        let count = words.values(&mut self.out.places).unwrap_or(0);
        Ok(self.told(Ok(count), None, true)?)
    }

    // reverse N ROOM OFFSET:COORDINATE..
    pub(crate) fn reverse(&mut self, mut words: Words<'_>) -> Result<Reply, StepError> {
        let n = number(&mut words).unwrap_or(0);
        let room = size(&mut words)?;
        let runs: Vec<u64> = list(self.alloc, words)?;
        self.refill(room)?;
        let answer = reverse::reverse_color_runs(&runs, n, self.out.front_mut());
        let kept = self.out.is_fresh_from(answer.unwrap_or(0));
        Ok(self.told(answer, None, kept)?)
    }

    // swap N OFFSET:COORDINATE..: in its own place
    pub(crate) fn swap(&mut self, mut words: Words<'_>) -> Result<Reply, StepError> {
        let n = number(&mut words)?;
        self.refill(WORDS)?;
        self.out.lent = words.values(&mut self.out.places).unwrap_or(0);
        let before = self.out.places.clone()?;
        let answer = reverse::reverse_color_runs_in_place(self.out.front_mut(), n);
        let kept = same_outside(0..answer.unwrap_or(0), &before, &self.out.places);
        Ok(self.told(answer, None, kept)?)
    }

    // rotate N PIVOT 0|1 ROOM OFFSET:COORDINATE..
    pub(crate) fn rotate(&mut self, mut words: Words<'_>) -> Result<Reply, StepError> {
        let n = number(&mut words).unwrap_or(0);
        let pivot = number(&mut words).unwrap_or(0);
        let reversed = flag(&mut words).unwrap_or(false);
        let room = size(&mut words)?;
        let runs: Vec<u64> = list(self.alloc, words)?;
        self.refill(room)?;
        let answer = rotate::rotate_cycle_color_runs(
            &runs,
            n,
            pivot,
            reversed,
            self.out.front_mut(),
        );
        let kept = self.out.is_fresh_from(answer.unwrap_or(0));
        Ok(self.told(answer, None, kept)?)
    }

    // append ROOM USED COUNT N 0|1 OFFSET:COORDINATE..: behind the runs of the output that there is
    pub(crate) fn append(&mut self, mut words: Words<'_>) -> Result<Reply, StepError> {
        let room = size(&mut words).unwrap_or(0);
        let used = size(&mut words).unwrap_or(0);
        let count = number(&mut words).unwrap_or(0);
        let n = number(&mut words).unwrap_or(0);
        let reversed = flag(&mut words)?;
        let piece: Vec<u64> = list(self.alloc, words)?;
        let before = self.out.places.clone()?;
        self.out.lent = room;
        let answer = append::append_color_runs(
            self.out.front_mut(),
            used,
            count,
            &piece,
            n,
            reversed,
        );
        let end = answer.map_or(used, |appended| appended.runs);
        let kept = same_outside(used..end, &before, &self.out.places);
        let vertices = answer.ok().map(|appended| appended.vertices as usize);
        Ok(self.told(answer.map(|appended| appended.runs), vertices, kept)?)
    }
}
