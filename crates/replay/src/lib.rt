// Runs a list of calls, six numbers each, through the store's methods: what a session of them leaves is what the plain
// store's run of them tells.
// `as` stands where no `From` leads, from u32 to usize.
#![tactic(auto)]

ghost use Rattle.std.specs.Prelude.{◌≡◌, ◌+◌, ◌*◌, ◌≤◌, length};
ghost use Rattle.store.specs.State.{bufs, of_answer};
ghost use Rattle.store.specs.Demand.{store_step, seen};
ghost use Rattle.replay.specs.Tape.{value_of, part, head_at, call_of, tape, replay_step, session_claim};
ghost use Rattle.replay.specs.Inside.{lent_by, room_by, bufs_in, same_references};

use base::{Refusal, code_of};
use store::state::{Store, Told, Way};

// A call's six numbers, its form on the tape. Kind 0 adds ids, 1 joins a piece of b vertices, reversed where c is not 0, 2 closes a
// line, 3 a cycle with pivot b, each with number a; anything else shows vertex b of unitig a. `from` and `count` say which ids or
// runs; a show takes `count` places of the output.
#[derive(Clone, Copy, Debug, PartialEq, Eq)]
pub struct Head {
    pub kind: u32,
    pub a: u32,
    pub b: u32,
    pub c: u32,
    pub from: u32,
    pub count: u32,
}

// The call that such numbers mean.
#[derive(Clone, Copy, Debug, PartialEq, Eq)]
pub enum Call {
    Add {
        number: u32,
        from: u32,
        count: u32,
    },
    Join {
        number: u32,
        n: u32,
        reversed: bool,
        from: u32,
        count: u32,
    },
    Close {
        number: u32,
        way: Way,
    },
    Show {
        unitig: u32,
        vertex: u32,
        count: u32,
    },
}

// What a session leaves: the state after its last call, or a refused start with the state that it hands back.
pub type Finished = Told<Store, ()>;

impl From<Head> for Call {
    ghost from_gives = { λ h c. c ≡ call_of h };

    #[tactic(auto, using(base::proofs::Tests::tests), unfolding(crate::specs::Tape::call_of))]
    fn from(h: Head) -> Call {
        match h.kind {
            0 => Call::Add {
                number: h.a,
                from: h.from,
                count: h.count,
            },
            1 => Call::Join {
                number: h.a,
                n: h.b,
                reversed: h.c != 0,
                from: h.from,
                count: h.count,
            },
            2 => Call::Close {
                number: h.a,
                way: Way::Line,
            },
            3 => Call::Close {
                number: h.a,
                way: Way::Cycle { pivot: h.b },
            },
            _ => Call::Show {
                unitig: h.a,
                vertex: h.b,
                count: h.count,
            },
        }
    }
}

impl Call {
    // How many places of the output a call is lent.
    #[tactic(auto, unfolding(crate::specs::Inside::room_by))]
    fn room(self, left: usize) -> usize
        ensures { (result ≡ room_by self left) × (result ≤ left) }
    {
        match self {
            Call::Show {
                unitig: _,
                vertex: _,
                count,
            } => (count as usize).min(left),
            _ => 0,
        }
    }
}

// What the tape tells of an answer beside its refusal's number: the value of one that is no refusal, or 0. The tape's form has a
// number for each call in two lists.
fn value_of(a: Result<u64, Refusal>) -> u64
    ensures { result ≡ value_of (of_answer a) }
{
    a.unwrap_or(0)
}

// As much of `count` places from `from` on as the pool has.
fn part<T>(pool: &[T], from: u32, count: u32) -> &[T]
    ensures { result.now ≡ part pool.now from count }
{
    let at = (from as usize).min(pool.len());
    let end = at + (count as usize).min(pool.len() - at);
    &pool[at..end]
}

impl From<[u32; 6]> for Head {
    ghost from_gives = { λ numbers h. h ≡ head_at numbers 0 };

    fn from(numbers: [u32; 6]) -> Head {
        let [kind, a, b, c, from, count] = numbers;
        Head {
            kind,
            a,
            b,
            c,
            from,
            count,
        }
    }
}

// The store's buffers, lent anew to each call.
#[derive(Drop)]
struct Buffers<'a> {
    records: &'a mut [u8],
    index: &'a mut [u64],
    opened: &'a mut [u64],
    held: &'a mut [u64],
    runs: &'a mut [u8],
    table: &'a mut [u64],
}

impl Buffers<'_> {
    // One call, with an output of as many places as it is lent.
    fn one(
        &mut self,
        s: Store,
        call: Call,
        ids: &[u32],
        pieces: &[u64],
        out: &mut [u32],
    ) -> Told<Store, u64>
        requires { room_by call (length out.old) ≡ length out.old }
        ensures same_references { same_references self.new self.old }
        ensures step { (seen (of_answer result.answer) out.new, result.state, bufs_in self.new) ≡ store_step s (bufs_in self.old) (lent_by call ids.now pieces.now out.old) }
    {
        // each by itself first: no rule covers a call that is lent a `&mut [T]` of a struct behind a `&mut`, and then
        // another of its fields
        let records = &mut *self.records;
        let index = &mut *self.index;
        let opened = &mut *self.opened;
        let held = &mut *self.held;
        let runs = &mut *self.runs;
        let table = &mut *self.table;
        match call {
            Call::Add {
                number,
                from,
                count,
            } => {
                let set = part(ids, from, count);
                s.add(number, set, records, index, opened, held, runs, table)
            }
            Call::Join {
                number,
                n,
                reversed,
                from,
                count,
            } => {
                let piece = part(pieces, from, count);
                s.join(
                    number, n, reversed, piece, records, index, opened, held, runs, table,
                )
            }
            Call::Close { number, way } => {
                s.close(number, way, records, index, opened, held, runs, table)
            }
            Call::Show {
                unitig,
                vertex,
                count: _,
            } => s.show(
                unitig, vertex, out, records, index, opened, held, runs, table,
            ),
        }
    }

    // As many calls as there are, and as there is room for what is told of them.
    fn all(
        &mut self,
        begun: Store,
        calls: &[u32],
        ids: &[u32],
        pieces: &[u64],
        refusals: &mut [u32],
        answers: &mut [u64],
        shown: &mut [u32],
    ) -> Store
        ensures same_references { same_references self.new self.old }
        ensures run { tape result (bufs_in self.new) refusals.new answers.new shown.new ≡ replay_step begun (bufs_in self.old) calls.now ids.now pieces.now refusals.old answers.old shown.old }
    {
        let heads = calls.as_chunks::<6>().0;
        let n = heads.len().min(refusals.len().min(answers.len()));
        let mut s = begun;
        let mut at: usize = 0;
        // by the number of the turn, since it writes to two lent lists: the two zipped by `iter_mut` would say nothing of
        // what they hold afterwards
        for i in 0..n {
            let call = Call::from(Head::from(heads[i]));
            let room = call.room(shown.len() - at);
            let end = at + room;
            let told = self.one(s, call, ids, pieces, &mut shown[at..end]);
            s = told.state;
            refusals[i] = code_of(&told.answer);
            answers[i] = value_of(told.answer);
            at = end;
        }
        s
    }
}

// As many calls as there are, and as there is room for what is told of them. Buffers and lists stay parameters of this and of `session`, as of the
// store's calls: a struct of them, lent to be written, would ask more of callers.
pub fn replay(
    begun: Store,
    calls: &[u32],
    ids: &[u32],
    pieces: &[u64],
    records: &mut [u8],
    index: &mut [u64],
    opened: &mut [u64],
    held: &mut [u64],
    runs: &mut [u8],
    table: &mut [u64],
    refusals: &mut [u32],
    answers: &mut [u64],
    shown: &mut [u32],
) -> Store
    ensures { tape result (bufs records.new index.new opened.new held.new runs.new table.new) refusals.new answers.new shown.new
        ≡ replay_step begun (bufs records.old index.old opened.old held.old runs.old table.old) calls.now ids.now pieces.now refusals.old answers.old shown.old }
{
    let mut buffers = Buffers {
        records,
        index,
        opened,
        held,
        runs,
        table,
    };
    buffers.all(begun, calls, ids, pieces, refusals, answers, shown)
}

// A store from its start on.
pub fn session(
    colors: u32,
    worker: u32,
    calls: &[u32],
    ids: &[u32],
    pieces: &[u64],
    records: &mut [u8],
    index: &mut [u64],
    opened: &mut [u64],
    held: &mut [u64],
    runs: &mut [u8],
    table: &mut [u64],
    refusals: &mut [u32],
    answers: &mut [u64],
    shown: &mut [u32],
) -> Finished
    ensures { session_claim result.answer result.state colors worker calls.now ids.now pieces.now
        (bufs records.old index.old opened.old held.old runs.old table.old) refusals.old answers.old shown.old
        (bufs records.new index.new opened.new held.new runs.new table.new) refusals.new answers.new shown.new }
{
    let begun = Store::start(colors, worker, records, index, opened, held, runs, table);
    match begun.answer {
        Err(_) => begun,
        Ok(()) => {
            let state = replay(
                begun.state,
                calls,
                ids,
                pieces,
                records,
                index,
                opened,
                held,
                runs,
                table,
                refusals,
                answers,
                shown,
            );
            Told {
                state,
                answer: Ok(()),
            }
        }
    }
}
