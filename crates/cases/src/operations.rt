// The call of each operation, over outputs that hold 165 at each place. A count becomes a usize by `as`, since there is no `From` for it from u64.
use crate::numbers::fitting;
use crate::recorded::{Answer, Operation, Recorded};
use capi::{records, unitigs};
use std::alloc::{AllocError, Global};

impl Recorded<'_> {
    fn write_record(&self, alloc: Global, colors: u32) -> Result<bool, AllocError> {
        let ids: Vec<u32> = fitting(alloc, self.input)?;
        let mut out: Vec<u8> = self.holding(alloc, &[])?;
        let mut answer = Answer::default();
        answer.code = records::rf_write_record(
            colors,
            &ids,
            self.lent(&mut out),
            &mut answer.given,
        );
        Ok(self.agrees(answer, &out))
    }

    fn read_record(&self, alloc: Global, colors: u32) -> Result<bool, AllocError> {
        let bytes: Vec<u8> = fitting(alloc, self.input)?;
        let mut out: Vec<u32> = self.holding(alloc, &[])?;
        let mut answer = Answer::default();
        answer.code = records::rf_read_record(
            colors,
            &bytes,
            self.lent(&mut out),
            &mut answer.given,
            &mut answer.more,
        );
        Ok(self.agrees(answer, &out))
    }

    fn make_index(&self, alloc: Global, count: u64) -> Result<bool, AllocError> {
        let bytes: Vec<u8> = fitting(alloc, self.input)?;
        let mut out: Vec<u64> = self.holding(alloc, &[])?;
        let mut answer = Answer::default();
        answer.code = records::rf_make_index(&bytes, count, self.lent(&mut out));
        Ok(self.agrees(answer, &out))
    }

    fn reverse_runs(&self, alloc: Global, vertices: u32) -> Result<bool, AllocError> {
        let mut out: Vec<u64> = self.holding(alloc, &[])?;
        let mut answer = Answer::default();
        answer.code = unitigs::rf_reverse_runs(
            self.input,
            vertices,
            self.lent(&mut out),
            &mut answer.given,
        );
        Ok(self.agrees(answer, &out))
    }

    fn reverse_runs_in_place(&self, alloc: Global, vertices: u32) -> Result<bool, AllocError> {
        let mut runs: Vec<u64> = self.holding(alloc, self.input)?;
        let mut answer = Answer::default();
        answer.code = unitigs::rf_reverse_runs_in_place(
            self.lent(&mut runs),
            vertices,
            &mut answer.given,
        );
        Ok(self.agrees(answer, &runs))
    }

    // The output's runs come first in the input, then the piece's.
    fn append_runs(
        &self,
        alloc: Global,
        vertices: u32,
        piece: u32,
        reversed: bool,
        used: u64,
    ) -> Result<bool, AllocError> {
        let (held, runs) = self
            .input
            .split_at_checked(used as usize)
            .unwrap_or((self.input, &[]));
        let mut out: Vec<u64> = self.holding(alloc, held)?;
        let mut answer = Answer::default();
        answer.code = unitigs::rf_append_runs(
            self.lent(&mut out),
            used,
            vertices,
            runs,
            piece,
            reversed,
            &mut answer.given,
            &mut answer.more,
        );
        Ok(self.agrees(answer, &out))
    }

    fn rotate_runs(
        &self,
        alloc: Global,
        vertices: u32,
        pivot: u32,
        reversed: bool,
    ) -> Result<bool, AllocError> {
        let mut out: Vec<u64> = self.holding(alloc, &[])?;
        let mut answer = Answer::default();
        answer.code = unitigs::rf_rotate_runs(
            self.input,
            vertices,
            pivot,
            reversed,
            self.lent(&mut out),
            &mut answer.given,
        );
        Ok(self.agrees(answer, &out))
    }

    fn write_runs(&self, alloc: Global) -> Result<bool, AllocError> {
        let mut out: Vec<u8> = self.holding(alloc, &[])?;
        let mut answer = Answer::default();
        answer.code = unitigs::rf_write_runs(self.input, self.lent(&mut out), &mut answer.given);
        Ok(self.agrees(answer, &out))
    }

    fn read_runs(&self, alloc: Global) -> Result<bool, AllocError> {
        let bytes: Vec<u8> = fitting(alloc, self.input)?;
        let mut out: Vec<u64> = self.holding(alloc, &[])?;
        let mut answer = Answer::default();
        answer.code = unitigs::rf_read_runs(
            &bytes,
            self.lent(&mut out),
            &mut answer.given,
            &mut answer.more,
        );
        Ok(self.agrees(answer, &out))
    }

    // Whether the call of a line is answered as the line says.
    pub(crate) fn is_answered(&self, alloc: Global) -> Result<bool, AllocError> {
        match self.operation {
            Operation::WriteRecord { colors } => self.write_record(alloc, colors),
            Operation::ReadRecord { colors } => self.read_record(alloc, colors),
            Operation::MakeIndex { count } => self.make_index(alloc, count),
            Operation::ReverseRuns { vertices } => self.reverse_runs(alloc, vertices),
            Operation::ReverseRunsInPlace { vertices } => self.reverse_runs_in_place(
                alloc, vertices,
            ),
            Operation::AppendRuns {
                vertices,
                piece,
                reversed,
                used,
            } => self.append_runs(alloc, vertices, piece, reversed, used),
            Operation::RotateRuns {
                vertices,
                pivot,
                reversed,
            } => self.rotate_runs(alloc, vertices, pivot, reversed),
            Operation::WriteRuns => self.write_runs(alloc),
            Operation::ReadRuns => self.read_runs(alloc),
        }
    }
}
