// What a line is answered, before it is text.
use base::Refusal;
use shell::reasons::Fault;
use store::state::Store;

#[derive(Clone, Copy)]
pub enum Reply {
    Done(u64),
    // So many ids.
    Ids(usize),
    // So many bytes of a record.
    Bytes(usize),
    // What the store holds.
    View(View, Store),
    Help,
}

// A part of what the store holds.
#[derive(Clone, Copy)]
pub enum View {
    Records,
    Index,
    Unitigs,
    State,
}

// Why a line is not done: the store or the codec turns it down, or it can't be read.
#[derive(Clone, Copy)]
pub enum Trouble {
    Refused(Refusal),
    Wrong(Fault),
}

impl From<Refusal> for Trouble {
    fn from(r: Refusal) -> Trouble {
        Trouble::Refused(r)
    }
}

impl From<Fault> for Trouble {
    fn from(f: Fault) -> Trouble {
        Trouble::Wrong(f)
    }
}
