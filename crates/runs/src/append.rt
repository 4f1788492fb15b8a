// A piece behind an output: the piece's first vertex is the output's last. The output is a lent buffer and how many runs it has, as the C
// interface hands it over: the libraries have no heap.
ghost use Rattle.std.specs.Prelude.{◌≡◌, ◌+◌, ◌-◌, ◌<◌, ◌≤◌, length, take, drop};
ghost use Rattle.std.specs.Int.{from_bool};
ghost use Rattle.base.specs.Parts.{over};
ghost use Rattle.std.proofs.Math.Seq.{paste};
ghost use Rattle.runs.specs.Colours.{last_coord};
ghost use Rattle.runs.specs.Inside.Oriented.{list_of};
ghost use Rattle.runs.specs.Append.{of_appended, shifted, append_runs, bad_counts, joinable, result_into, append_into};
ghost use Rattle.runs.specs.Merge.{merge};
ghost use Rattle.runs.specs.Inside.Merging.{FillsAll, merged_behind};
ghost use Rattle.runs.specs.Inside.Pieces.{Admitted, drops_first};

use crate::oriented::{Oriented, Shifted};
use crate::{orders, words};
use base::Refusal;

// How many runs and vertices the output has now.
#[derive(Clone, Copy, Debug, PartialEq, Eq)]
pub struct Appended {
    pub runs: usize,
    pub vertices: u32,
}

#[tactic(auto, unfolding(crate::specs::Append::bad_counts))]
fn bad_counts(a: u32, b: u32) -> bool
    ensures { result ≡ bad_counts a b }
{
    a == 0 || b == 0 || 16777215 < u64::from(a) + u64::from(b) - 1
}

// Whether a piece can stand behind the list.
#[tactic(auto, unfolding(crate::specs::Append::joinable))]
fn is_joinable(runs: &[u64], n: u32) -> bool
    ensures { result ≡ joinable n runs.now }
{
    orders::is_steady(runs, n) && runs.last().is_some_and(|run| words::offset(*run) < n)
}

// Whether the piece's first run has the coordinate of the output's last.
fn drops_first(runs: &[u64], piece: &Oriented) -> bool
    requires { 0 < length piece.now.runs.now }
    ensures { result ≡ drops_first (last_coord runs.now) (list_of piece.now) }
{
    let last = orders::last_coordinate(runs);
    let first = words::coordinate(piece.run_at(0));
    last == first
}

// The piece's runs behind the output's, without its first where that is dropped: of a piece without equal neighbours.
fn fill_appended(out: &mut [u64], used: usize, piece: &Shifted, drops: bool)
    requires { used + (length piece.now.list.runs.now - from_bool drops) ≤ length out.old }
    ensures { out.new ≡ paste out.old used (shifted piece.now.shift (drop (from_bool drops) (list_of piece.now.list))) (length piece.now.list.runs.now - from_bool drops) }
{
    if drops {
        piece.fill_rest(&mut out[used..]);
    } else {
        piece.fill(&mut out[used..]);
    }
}

// The piece's runs behind the output's, merged: `total` runs then. A piece that has none to merge is moved as it is, which takes less time.
fn fill_behind(
    out: &mut [u64],
    used: usize,
    piece: &Shifted,
    merged: usize,
    drops: bool,
    total: usize,
)
    requires { (FillsAll piece.now out.old used drops total) × (merged ≡ length (merge (list_of piece.now.list))) }
    ensures { out.new ≡ over (merged_behind piece.now used out.old) out.old }
{
    if merged == piece.list.runs.len() {
        fill_appended(out, used, piece, drops);
    } else {
        piece.fill_merged(out, used, drops, total);
    }
}

// The piece behind the output, where both are as admitted; merged, the piece has so many runs.
fn append_admitted(
    out: &mut [u64],
    used: usize,
    out_count: u32,
    piece: &Oriented,
    merged: usize,
) -> Result<Appended, Refusal>
    requires { Admitted out.old used out_count piece.now.runs.now piece.now.n merged }
    ensures { (of_appended result, out.new) ≡ result_into (append_runs (take used out.old) out_count piece.now.runs.now piece.now.n piece.now.reversed) (out_count + piece.now.n - 1) out.old }
{
    let drops = drops_first(&out[..used], piece);
    let total = used + (merged - usize::from(drops));
    if out.len() < total {
        return Err(Refusal::Space);
    }
    let moved = Shifted {
        list: *piece,
        shift: out_count - 1,
    };
    fill_behind(out, used, &moved, merged, drops, total);
    Ok(Appended {
        runs: total,
        vertices: out_count + (piece.n - 1),
    })
}

// Append a piece behind the `used` runs of the output, which has `out_count` vertices.
pub fn append_color_runs(
    out: &mut [u64],
    used: usize,
    out_count: u32,
    piece: &[u64],
    piece_count: u32,
    reversed: bool,
) -> Result<Appended, Refusal>
    ensures { (of_appended result, out.new) ≡ append_into out.old used out_count piece.now piece_count reversed }
{
    if out.len() < used {
        return Err(Refusal::Space);
    }
    if bad_counts(out_count, piece_count) {
        return Err(Refusal::Vertices);
    }
    if !is_joinable(&out[..used], out_count) {
        return Err(Refusal::Runs);
    }
    let Some(merged) = orders::merged_count(piece, piece_count) else {
        return Err(Refusal::Runs);
    };
    let oriented = Oriented {
        runs: piece,
        n: piece_count,
        reversed,
    };
    append_admitted(out, used, out_count, &oriented, merged)
}
