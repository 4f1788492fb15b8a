// Run bytes: a LEB128 count, then 8 bytes a run, low first.
ghost use Rattle.std.specs.Prelude.{ℕ, ◌≡◌, ◌++◌, ◌+◌, ◌*◌, ◌/◌, ◌<◌, ◌≤◌, List, length, take, drop};
ghost use Rattle.base.specs.Answers.{of_written, of_given};
ghost use Rattle.base.specs.Parts.{over};
ghost use Rattle.codec.specs.Flat.{flat};
ghost use Rattle.codec.specs.Prefix.{prefix_of};
ghost use Rattle.runs.specs.Inside.Yields.{YieldsAll, YieldsUpTo};
ghost use Rattle.runs.specs.Bytes.{le_bytes, write_runs, read_runs_into, write_rotated, of_colored, sharp_colour};

use crate::blocks::Blocks;
use crate::oriented::Oriented;
use crate::{orders, rotate};
use base::{Given, Refusal};

// The eight bytes of a run from `at` on.
fn put_word(out: &mut [u8], at: usize, w: u64)
    requires { at + 8 ≤ length out.old }
    ensures { out.new ≡ take at out.old ++ le_bytes 8 w ++ drop (at + 8) out.old }
{
    out[at..at + 8].copy_from_slice(&w.to_le_bytes());
}

// How many bytes `count` runs take. `as`, since no `From` leads from u32 to usize.
fn bytes_for(count: u32) -> usize
    ensures { (result ≡ length (prefix_of count) + 8 * count) × (length (prefix_of count) ≤ 5) }
{
    codec::prefix::varint_len(count) + 8 * count as usize
}

// The runs that the iterator gives, eight bytes each, to the front of `out`. `YieldsUpTo`, here and in `write`, bounds what the iterator
// gives; it is a clause, since no struct holds the iterator.
fn fill_bytes<I: Iterator<Item = u64>>(runs: I, out: &mut [u8])
    requires { YieldsUpTo I.can_next I.next_gives I.remaining runs (length out.old / 8) }
    ensures { (all : List ℕ) → YieldsAll I.next_gives runs all → out.new ≡ over (flat (le_bytes 8) all) out.old }
{
    // `out` by index: no clause says what a slice holds after its `chunks_exact_mut`.
    for (i, run) in runs.enumerate() {
        put_word(out, 8 * i, run);
    }
}

// The `count` runs that the iterator gives, as bytes to the front of `out`.
fn write<I: Iterator<Item = u64>>(count: u32, runs: I, out: &mut [u8]) -> Result<usize, Refusal>
    requires { YieldsUpTo I.can_next I.next_gives I.remaining runs count }
    ensures { (all : List ℕ) → YieldsAll I.next_gives runs all → length all ≡ count → (of_written result, out.new) ≡ write_runs all out.old }
{
    let total = bytes_for(count);
    if out.len() < total {
        return Err(Refusal::Space);
    }
    let p = codec::prefix::write_varint(count, out)?;
    fill_bytes(runs, &mut out[p..]);
    Ok(total)
}

// A list as bytes to the front of `out`.
pub fn write_unitig_color_runs(runs: &[u64], out: &mut [u8]) -> Result<usize, Refusal>
    ensures { (of_written result, out.new) ≡ write_runs runs.now out.old }
{
    let count = u32::try_from(runs.len()).map_err(|_| Refusal::Runs)?;
    write(count, runs.iter().copied(), out)
}

// The list, reversed first where wished, turned left by pivot mod n, as bytes to the front of `out`. The turned list stands nowhere else.
pub fn write_rotated_runs(
    runs: &[u64],
    n: u32,
    pivot: u32,
    reversed: bool,
    out: &mut [u8],
) -> Result<usize, Refusal>
    ensures { (of_written result, out.new) ≡ write_rotated runs.now n pivot reversed out.old }
{
    orders::check_steady(runs, n)?;
    let cycle = rotate::turned(Oriented { runs, n, reversed }, pivot);
    let count = rotate::count(cycle);
    // `count` is below 2 ^ 24, which is proved. So many runs and no more, as in `rotate_cycle_color_runs`.
    write(count as u32, cycle.take(count), out)
}

// The list at the front of `bytes` to the front of `out`.
pub fn read_unitig_color_runs(bytes: &[u8], out: &mut [u64]) -> Result<Given, Refusal>
    ensures { (of_given result, out.new) ≡ read_runs_into bytes.now out.old }
{
    let list = Blocks::read(bytes)?;
    if out.len() < list.count {
        return Err(Refusal::Space);
    }
    list.fill(out);
    Ok(Given {
        items: list.count,
        bytes: list.at + 8 * list.count,
    })
}

// The coordinate of a vertex by the list at the front of `bytes`, which has to be sharp for n vertices. Refusals 14, then 4, 5, 6, in this order.
pub fn sharp_color_at(bytes: &[u8], n: u32, vertex: u32) -> Result<u64, Refusal>
    ensures { of_colored result ≡ sharp_colour n vertex bytes.now }
{
    if n <= vertex {
        return Err(Refusal::Place);
    }
    let list = Blocks::read(bytes)?;
    if !orders::are_sharp(list, n) {
        return Err(Refusal::Runs);
    }
    Ok(list.color_at(vertex))
}
