// The state of a store, and what its calls answer.
ghost use Rattle.std.specs.Prelude.{◌≡◌, ◌≤◌, length, take};
ghost use Rattle.store.specs.State.{extent};

use base::Refusal;

// How long a buffer was at start and how much of it is used, in its own elements. The caller lends each buffer: the
// state's memory is fixed and has no heap, so that a length and a used count stand for what a Vec would hold.
#[derive(Clone, Copy, Debug, Default, PartialEq, Eq)]
pub struct Extent {
    pub length: usize,
    pub used: usize,
}

// The open unitig: none, or one of so many vertices. The form is the specification's, an enum of its own.
#[derive(Clone, Copy, Debug, Default, PartialEq, Eq)]
pub enum Current {
    #[default]
    Nothing,
    Open(u32),
}

// How a unitig is closed.
#[derive(Clone, Copy, Debug, PartialEq, Eq)]
pub enum Way {
    Line,
    Cycle { pivot: u32 },
}

// The last accepted call with its arguments, but for the ids of an add and the runs of a join. The form is the
// specification's, as `Current`.
#[derive(Clone, Copy, Debug, Default, PartialEq, Eq)]
pub enum Last {
    #[default]
    Fresh,
    Add,
    Join { n: u32, reversed: bool },
    Close { way: Way },
}

// What one reading cell has sent: its record file with the index, its open unitig, its last accepted call.
#[derive(Clone, Copy, Debug, Default, PartialEq, Eq)]
pub struct Cell {
    pub worker: u32,
    pub records: Extent,
    // the index: its length; it has one entry more than there are sets
    pub index: usize,
    pub sets: u32,
    pub opened: Extent,
    pub held: Extent,
    pub current: Current,
    // the last accepted number, its call and its answer
    pub number: u32,
    pub last: Last,
    pub answer: u64,
}

// The closed unitigs.
#[derive(Clone, Copy, Debug, Default, PartialEq, Eq)]
pub struct Shared {
    pub runs: Extent,
    // the unitig table: its length; it has two numbers for each unitig
    pub table: usize,
    pub unitigs: u32,
}

// The default has no colours: every call turns it down with 15.
#[derive(Clone, Copy, Debug, Default, PartialEq, Eq)]
pub struct Store {
    pub colors: u32,
    pub cell: Cell,
    pub shared: Shared,
}

// What a call tells: the state handed back beside the answer.
#[derive(Clone, Copy, Debug, PartialEq, Eq)]
pub struct Told<S, T> {
    pub state: S,
    pub answer: Result<T, Refusal>,
}

impl Extent {
    // Of a buffer of which nothing is used.
    pub(crate) fn unused(length: usize) -> Extent
        ensures { result ≡ extent length 0 }
    {
        Extent { length, used: 0 }
    }

    // The part of the buffer that is used.
    pub(crate) fn part<T>(self, buffer: &[T]) -> &[T]
        requires { self.used ≤ length buffer.now }
        ensures { result.now ≡ take self.used buffer.now }
    {
        &buffer[..self.used]
    }
}
