// A store anew, and one after a few calls, over buffers that hold 9 at each place.
use crate::args::{StepError, list};
use crate::bench::Bench;
use crate::replies::Reply;
use shell::lengths::Lengths;
use shell::reasons::Fault;
use shell::words::Words;
use store::state::Way;

impl Bench {
    // start N W RECORDS INDEX OPEN HELD RUNS TABLE
    pub(crate) fn start(&mut self, words: Words<'_>) -> Result<Reply, StepError> {
        let numbers: Vec<u32> = list(self.alloc, words)?;
        let [colors, worker, records, index, opened, held, runs, table] = numbers.as_slice() else {
            return Err(StepError::Words(Fault::Missing));
        };
        let lent = Lengths::from([*records, *index, *opened, *held, *runs, *table]);
        Ok(self.state.start(self.alloc, *colors, *worker, lent)?)
    }

    // N = 8, W = 2, two sets: 5, and 0 and 7. They fill the record file and the index.
    pub(crate) fn sets(&mut self) -> Result<Reply, StepError> {
        let lent = Lengths {
            records: 6,
            index: 3,
            opened: 3,
            held: 2,
            runs: 18,
            table: 2,
        };
        self.state.start(self.alloc, 8, 2, lent)?;
        self.state.add(1, &[5])?;
        Ok(self.state.add(2, &[0, 7])?)
    }

    // Then an open unitig of three vertices: (0,2)(2,258).
    pub(crate) fn piece(&mut self) -> Result<Reply, StepError> {
        self.sets()?;
        Ok(self.state.join(3, 3, false, &[33554432, 4328521730])?)
    }

    // Then it is closed as a line, which leaves one byte of the run file and no place in the table.
    pub(crate) fn unitig(&mut self) -> Result<Reply, StepError> {
        self.piece()?;
        Ok(self.state.close(4, Way::Line)?)
    }
}
