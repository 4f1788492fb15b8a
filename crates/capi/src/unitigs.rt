// Run lists and run bytes. A run is one 64-bit number: its first vertex in the low 24 bits, its
// coordinate in the high 40. Counts are u64 in C and usize here: `as`, since there is no `From` between them.
ghost use Rattle.std.specs.Prelude.{◌≡◌};
ghost use Rattle.runs.specs.Reverse.{reverse_into, reverse_in_place};
ghost use Rattle.runs.specs.Append.{append_into};
ghost use Rattle.runs.specs.Rotate.{rotate_into};
ghost use Rattle.runs.specs.Bytes.{write_runs, read_runs_into};
ghost use Rattle.capi.specs.Exports.{one, two};

use crate::answers::{tell, tell_given};
use base::code_of;

// The list of the same colours from the other end; `count` runs.
pub fn rf_reverse_runs(runs: &[u64], n: u32, out: &mut [u64], count: &mut u64) -> u32
    ensures { (result, count.new, out.new) ≡ one (reverse_into runs.now n out.old) count.old }
{
    tell(runs::reverse::reverse_color_runs(runs, n, out), count)
}

// The same in the place of the list itself.
pub fn rf_reverse_runs_in_place(runs: &mut [u64], n: u32, count: &mut u64) -> u32
    ensures { (result, count.new, runs.new) ≡ one (reverse_in_place runs.old n) count.old }
{
    tell(runs::reverse::reverse_color_runs_in_place(runs, n), count)
}

// A piece behind the `used` runs of an output of `out_count` vertices; the piece's first vertex is the
// output's last. `count` runs and `vertices` then.
pub fn rf_append_runs(
    out: &mut [u64],
    used: u64,
    out_count: u32,
    piece: &[u64],
    piece_count: u32,
    reverse: bool,
    count: &mut u64,
    vertices: &mut u64,
) -> u32
    ensures { (result, count.new, vertices.new, out.new) ≡ two (append_into out.old used out_count piece.now piece_count reverse) count.old vertices.old }
{
    let answer = runs::append::append_color_runs(
        out,
        used as usize,
        out_count,
        piece,
        piece_count,
        reverse,
    );
    if let Ok(appended) = answer {
        *count = appended.runs as u64;
        *vertices = u64::from(appended.vertices);
    }
    code_of(&answer)
}

// A cycle, reversed first where wished, turned left by pivot mod n, equal neighbours merged; `count` runs.
pub fn rf_rotate_runs(
    runs: &[u64],
    n: u32,
    pivot: u32,
    reverse: bool,
    out: &mut [u64],
    count: &mut u64,
) -> u32
    ensures { (result, count.new, out.new) ≡ one (rotate_into runs.now n pivot reverse out.old) count.old }
{
    tell(
        runs::rotate::rotate_cycle_color_runs(runs, n, pivot, reverse, out),
        count,
    )
}

// The run bytes of a list; `written` bytes.
pub fn rf_write_runs(runs: &[u64], out: &mut [u8], written: &mut u64) -> u32
    ensures { (result, written.new, out.new) ≡ one (write_runs runs.now out.old) written.old }
{
    tell(runs::bytes::write_unitig_color_runs(runs, out), written)
}

// The list whose run bytes stand at the front; `given` runs, from `taken` bytes.
pub fn rf_read_runs(bytes: &[u8], out: &mut [u64], given: &mut u64, taken: &mut u64) -> u32
    ensures { (result, given.new, taken.new, out.new) ≡ two (read_runs_into bytes.now out.old) given.old taken.old }
{
    tell_given(
        runs::bytes::read_unitig_color_runs(bytes, out),
        given,
        taken,
    )
}
