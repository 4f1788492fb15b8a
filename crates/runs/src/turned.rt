// A cycle begun at another vertex, run by run: the cost grows with the runs, not with the vertices.
ghost use Rattle.std.specs.Prelude.{◌≡◌, ◌+◌, ◌<◌, ◌≤◌, length};
ghost use Rattle.runs.specs.Inside.Cursor.{begins};

use crate::oriented::Oriented;
use crate::words;

// A cycle and the vertex that it is to begin at.
#[derive(Clone, Copy)]
pub(crate) struct Turn<'a> {
    pub(crate) list: Oriented<'a>,
    pub(crate) pivot: u32,
    ghost within: { pivot ≤ list.n },
}

// Two rounds over the runs make a turned cycle: the first gives the vertices from the pivot on, the second those before it. Step j is run j
// of the first round, or run j - m of the second, and gives vertices of one colour.
#[derive(Clone, Copy)]
pub(crate) struct Part {
    pub(crate) begin: u32,
    pub(crate) end: u32,
    pub(crate) colour: u64,
}

impl Turn<'_> {
    ghost use Rattle.std.specs.Prelude.{◌+◌, ◌<◌, length};
    ghost use Rattle.runs.specs.Inside.Oriented.{list_of};
    ghost use Rattle.runs.specs.Inside.Cursor.{Parted};

    // What step j gives.
    pub(crate) fn part_at(&self, j: usize) -> Part
        requires { j < length self.now.list.runs.now + length self.now.list.runs.now }
        ensures { Parted self.now.list.n self.now.pivot (list_of self.now.list) j result }
    {
        let m = self.list.runs.len();
        let p = self.pivot;
        let rest = self.list.n - p;
        if j < m {
            let w = self.list.run_at(j);
            let e = self.list.end_at(j);
            Part {
                begin: words::offset(w).saturating_sub(p),
                end: e.saturating_sub(p),
                colour: words::coordinate(w),
            }
        } else {
            let w = self.list.run_at(j - m);
            let e = self.list.end_at(j - m);
            Part {
                begin: rest + words::offset(w).min(p),
                end: rest + e.min(p),
                colour: words::coordinate(w),
            }
        }
    }
}

// Whether a run begins at a vertex of colour d, behind one of colour c.
#[tactic(auto, unfolding(crate::specs::Inside::Cursor::begins))]
fn begins_at(at: u32, c: u64, d: u64) -> bool
    ensures { result ≡ begins at c d }
{
    at == 0 || c != d
}

// The runs of a turned cycle from a step on, behind a vertex of this colour.
#[derive(Clone, Copy)]
pub(crate) struct Turned<'a> {
    pub(crate) turn: Turn<'a>,
    pub(crate) step: usize,
    pub(crate) colour: u64,
    ghost inside: { step ≤ length turn.list.runs.now + length turn.list.runs.now },
}

impl Iterator for Turned<'_> {
    ghost use Rattle.std.specs.Iterator.{YieldsFirst, item_count};
    ghost use Rattle.runs.specs.Inside.Turned.{ahead};

    type Item = u64;

    ghost next_gives = { YieldsFirst ahead };

    ghost remaining = { item_count ahead };

    // Inlined: so a loop keeps the step and the colour in registers.
    #[inline(always)]
    fn next(&mut self) -> Option<u64> {
        let turn = self.turn;
        let colour = self.colour;
        let end = turn.list.runs.len() + turn.list.runs.len();
        for step in self.step..end {
            let part = turn.part_at(step);
            if part.begin < part.end && begins_at(part.begin, colour, part.colour) {
                *self = Turned {
                    turn,
                    step: step + 1,
                    colour: part.colour,
                };
                return Some(words::pack(part.begin, part.colour));
            }
        }
        *self = Turned {
            turn,
            step: end,
            colour,
        };
        None
    }
}
