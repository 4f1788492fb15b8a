// Numbers and runs from a place of a line to its end.
ghost use Rattle.std.specs.Prelude.{◌≡◌, ◌%◌, List, ℕ, Result, length};
ghost use Rattle.shell.specs.declared.reasons.Fault.{Fault};
ghost use Rattle.shell.specs.Lists.{id_of, run_of, item_at, list_from};

use crate::fields::{next_field, part};
use crate::numbers::number_in;
use crate::pairs::pair;
use crate::reasons::Fault;

// What a word of a line says.
pub trait Word: Copy {
    ghost said: { List ℕ → Result Self Fault };

    fn read(word: &[u8]) -> Result<Self, Fault>
        ensures { result ≡ said word.now };
}

// A number of 32 bits.
impl Word for u32 {
    ghost said = { id_of };

    #[tactic(auto, unfolding(crate::specs::Lists::id_of))]
    fn read(word: &[u8]) -> Result<u32, Fault> {
        number_in(word).map_err(|e| e.fault(Fault::Digits))
    }
}

// A run, which is one word of 64 bits.
impl Word for u64 {
    ghost said = { run_of };

    #[tactic(auto, unfolding(crate::specs::Lists::run_of))]
    fn read(word: &[u8]) -> Result<u64, Fault> {
        pair(word).map_err(|e| e.fault(Fault::Pair))
    }
}

// A number of 32 bits, cut on purpose where it has more, which no conversion of the library does.
pub fn narrow(value: u64) -> u32
    ensures { result ≡ value % 4294967296 }
{
    (value % 4294967296) as u32
}

// What a word says, and where it ends.
#[derive(Clone, Copy)]
pub struct Item<T> {
    pub value: T,
    pub next: usize,
}

// What the next word says, if there is one.
#[tactic(auto, unfolding(crate::specs::Lists::item_at))]
pub fn item_at<T: Word>(line: &[u8], at: usize) -> Result<Option<Item<T>>, Fault>
    ensures { result ≡ item_at T.said line.now at }
{
    let Some(field) = next_field(line, at) else {
        return Ok(None);
    };
    let value = T::read(part(line, field.start, field.end))?;
    Ok(Some(Item {
        value,
        next: field.end,
    }))
}

// What the words up to the end of the line say, to the front of `out`; answers how many there are. The turns are counted by the line's
// bytes, of which each word takes one at least. Not by an iterator of items: a word that can't be read says no place behind it, so the
// iterator would need a mark of its own to end.
pub fn list_at<T: Word>(line: &[u8], from: usize, out: &mut [T]) -> Result<usize, Fault>
    ensures { (result, out.new) ≡ list_from T.said (length line.now) line.now from 0 out.old }
{
    let mut at = from;
    for (k, _) in line.iter().enumerate() {
        let Some(item) = item_at(line, at)? else {
            return Ok(k);
        };
        // By index: no clause says what a slice holds after its `get_mut`.
        if out.len() <= k {
            return Err(Fault::Many);
        }
        out[k] = item.value;
        at = item.next;
    }
    Ok(line.len())
}
