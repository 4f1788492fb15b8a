// A recorded call, and what it must answer. A count becomes a usize by `as`, since there is no `From` for it from u64.
ghost use Rattle.std.specs.Prelude.{◌≡◌, IfOk, vec_len};

use crate::numbers::{MOST_ITEMS, Narrow, fitting, list_of, numbers_of};
use shell::fields::{is_line_end, split_front};
use std::alloc::{AllocError, Global};
use std::io;

// What every place of an output holds before the call, so that a change shows.
pub(crate) const FILL: u8 = 165;

// What is called, with its numbers.
#[derive(Clone, Copy, Debug)]
pub(crate) enum Operation {
    WriteRecord {
        colors: u32,
    },
    ReadRecord {
        colors: u32,
    },
    MakeIndex {
        count: u64,
    },
    ReverseRuns {
        vertices: u32,
    },
    ReverseRunsInPlace {
        vertices: u32,
    },
    AppendRuns {
        vertices: u32,
        piece: u32,
        reversed: bool,
        used: u64,
    },
    RotateRuns {
        vertices: u32,
        pivot: u32,
        reversed: bool,
    },
    WriteRuns,
    ReadRuns,
}

impl Operation {
    // The operation that the first five numbers of a line name: its own number, and the numbers that it takes.
    fn of(numbers: &[u64]) -> Option<Self> {
        Some(match numbers {
            [1, colors, ..] => Operation::WriteRecord {
                colors: u32::of(*colors),
            },
            [2, colors, ..] => Operation::ReadRecord {
                colors: u32::of(*colors),
            },
            [3, count, ..] => Operation::MakeIndex { count: *count },
            [4, vertices, ..] => Operation::ReverseRuns {
                vertices: u32::of(*vertices),
            },
            [5, vertices, ..] => Operation::ReverseRunsInPlace {
                vertices: u32::of(*vertices),
            },
            [6, vertices, piece, reversed, used] => Operation::AppendRuns {
                vertices: u32::of(*vertices),
                piece: u32::of(*piece),
                reversed: *reversed == 1,
                used: *used,
            },
            [7, vertices, pivot, reversed, ..] => Operation::RotateRuns {
                vertices: u32::of(*vertices),
                pivot: u32::of(*pivot),
                reversed: *reversed == 1,
            },
            [8, ..] => Operation::WriteRuns,
            [9, ..] => Operation::ReadRuns,
            _ => return None,
        })
    }
}

// The answer of a call: 0 or a refusal's number, and the numbers that come with it.
#[derive(Clone, Copy, Debug, Default, PartialEq, Eq)]
pub(crate) struct Answer {
    pub code: u32,
    pub given: u64,
    pub more: u64,
}

// A line: the call, its input, how many places of output are lent, the answer, and what the output must hold from its front.
#[derive(Clone, Copy, Debug)]
pub(crate) struct Recorded<'a> {
    pub operation: Operation,
    pub input: &'a [u64],
    space: usize,
    answer: Answer,
    output: &'a [u64],
}

impl<'a> Recorded<'a> {
    fn of(numbers: &'a [u64]) -> Option<Self> {
        let (call, rest) = numbers.split_at_checked(5)?;
        let [space, code, given, more, lists @ ..] = rest else {
            return None;
        };
        let (input, rest) = list_of(lists)?;
        let (output, rest) = list_of(rest)?;
        if !rest.is_empty() {
            return None;
        }
        Some(Recorded {
            operation: Operation::of(call)?,
            input,
            space: *space as usize,
            answer: Answer {
                code: u32::try_from(*code).ok()?,
                given: *given,
                more: *more,
            },
            output,
        })
    }

    // An output that holds these items from its front.
    pub(crate) fn holding<T>(&self, alloc: Global, items: &[u64]) -> Result<Vec<T>, AllocError>
    where
        T: Narrow + From<u8>,
        ensures { IfOk result (λ places. vec_len places ≡ 2048) }
    {
        let mut places = fitting(alloc, items)?;
        places.resize(MOST_ITEMS, T::from(FILL))?;
        Ok(places)
    }

    // As many places of an output as are lent, or all where it has fewer.
    pub(crate) fn lent<'b, T>(&self, output: &'b mut [T]) -> &'b mut [T] {
        split_front(output, self.space).0
    }

    // Whether the answer is the one of the line, and the output holds what it says, with nothing altered behind it.
    pub(crate) fn agrees<T>(&self, answer: Answer, output: &[T]) -> bool
    where
        T: Into<u64> + Copy,
    {
        let Some((front, behind)) = output.split_at_checked(self.output.len()) else {
            return false;
        };
        answer == self.answer
            && front
                .iter()
                .zip(self.output)
                .all(|(got, want)| -> bool { (*got).into() == *want })
            && behind
                .iter()
                .all(|place| -> bool { (*place).into() == u64::from(FILL) })
    }
}

// Whether the call of a line is answered as the line says. A line that can't be read is not.
fn agrees(alloc: Global, line: &[u8]) -> Result<bool, AllocError> {
    let numbers = numbers_of(alloc, line)?;
    match Recorded::of(numbers.as_slice()) {
        Some(line) => line.is_answered(alloc),
        None => Ok(false),
    }
}

// The call of each line.
pub(crate) fn replay_all(rt: &impl Print, alloc: Global, text: &[u8]) -> io::Result<()> {
    // Counted here and not by `enumerate` or `count`: both are told behind the loop, in which `?` stands.
    let mut lines = 0u64;
    let mut differ = 0u64;
    for line in text.split_inclusive(|byte| is_line_end(*byte)) {
        lines = lines.saturating_add(1);
        if !agrees(alloc, line)? {
            differ = differ.saturating_add(1);
            println!(rt; "differs: line {lines}")?;
        }
    }
    println!(rt; "{lines} recorded answers, {differ} differ")
}
