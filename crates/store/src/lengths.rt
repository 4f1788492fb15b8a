// How long the buffers are that are lent to a call: in two parts, as the state is, since each part of it tests its own. `Lengths` of shell is the
// six numbers of a line: shell doesn't know the store.
ghost use Rattle.std.specs.Prelude.{◌≡◌};
ghost use Rattle.store.specs.State.{bufs, lengths_of};
ghost use Rattle.store.specs.Inside.Lent.{all_lent};

// A cell's: record file, index, open runs, held piece.
#[derive(Clone, Copy)]
pub struct CellLengths {
    pub records: usize,
    pub index: usize,
    pub opened: usize,
    pub held: usize,
}

// Those that cells share: run file, unitig table.
#[derive(Clone, Copy)]
pub struct SharedLengths {
    pub runs: usize,
    pub table: usize,
}

#[derive(Clone, Copy)]
pub struct Lengths {
    pub cell: CellLengths,
    pub shared: SharedLengths,
}

impl Lengths {
    // How long these buffers are. They stay parameters of their own, here and in each call: which of them a call may write differs from call
    // to call, and a struct of them all, lent to be written, would ask more of callers. The private functions that a call lends its two on to
    // take them so too: of a struct behind a `&mut` each would first be lent anew in a line of its own.
    pub(crate) fn of(
        records: &[u8],
        index: &[u64],
        opened: &[u64],
        held: &[u64],
        runs: &[u8],
        table: &[u64],
    ) -> Lengths
        ensures { all_lent result ≡ lengths_of (bufs records.now index.now opened.now held.now runs.now table.now) }
    {
        Lengths {
            cell: CellLengths {
                records: records.len(),
                index: index.len(),
                opened: opened.len(),
                held: held.len(),
            },
            shared: SharedLengths {
                runs: runs.len(),
                table: table.len(),
            },
        }
    }
}
