// How long a store's six buffers are. The numbers of a line become lengths by `as`, since there is no `From` from u32 to usize.
ghost use Rattle.std.specs.Prelude.{◌≡◌};
ghost use Rattle.shell.specs.Lengths.{lengths_of};

#[derive(Clone, Copy, Debug, Default, PartialEq, Eq)]
pub struct Lengths {
    pub records: usize,
    pub index: usize,
    pub opened: usize,
    pub held: usize,
    pub runs: usize,
    pub table: usize,
}

// In the order of a start's line.
impl From<[u32; 6]> for Lengths {
    ghost from_gives = { λ numbers lengths. lengths ≡ lengths_of numbers };

    fn from(numbers: [u32; 6]) -> Lengths {
        let [records, index, opened, held, runs, table] = numbers;
        Lengths {
            records: records as usize,
            index: index as usize,
            opened: opened as usize,
            held: held as usize,
            runs: runs as usize,
            table: table as usize,
        }
    }
}
