// A reply as text. A length is printed as a u64: `as`, since there is no `From` from usize to u64.
use crate::help::HELP;
use crate::orders::Desk;
use crate::output::Output;
use crate::replies::{Reply, Trouble, View};
use crate::views;
use base::Refusal;
use shell::fields::front;
use shell::reasons::Fault;
use std::io;
use store::state::Store;

// "ok COUNT: ID ID .."
fn listed(ids: &[u32], out: &mut Output) -> io::Result<()> {
    out.named(b"ok ", ids.len() as u64)?;
    out.text(b":")?;
    for id in ids {
        out.named(b" ", u64::from(*id))?;
    }
    out.text(b"\n")
}

// "refused K reason"
fn refused(r: Refusal, out: &mut Output) -> io::Result<()> {
    out.text(b"refused ")?;
    out.reason(r)?;
    out.text(b"\n")
}

// "error LINE: what is wrong"
fn wrong(f: Fault, line: u64, out: &mut Output) -> io::Result<()> {
    out.named(b"error ", line)?;
    out.text(b": ")?;
    out.fault(f)?;
    out.text(b"\n")
}

fn view(view: View, store: Store, desk: &mut Desk, out: &mut Output) -> io::Result<()> {
    match view {
        View::Records => views::records(store, &desk.memory, out),
        View::Index => views::index(store, &desk.memory, out),
        View::Unitigs => views::unitigs(store, &desk.memory, &mut desk.piece, out),
        View::State => views::state(store, out),
    }
}

fn reply(reply: Reply, desk: &mut Desk, out: &mut Output) -> io::Result<()> {
    match reply {
        Reply::Done(value) => {
            out.named(b"ok ", value)?;
            out.text(b"\n")
        }
        Reply::Ids(count) => listed(front(&desk.ids, count), out),
        Reply::Bytes(len) => {
            out.text(b"ok ")?;
            out.hex(front(&desk.space, len))?;
            out.text(b"\n")
        }
        Reply::View(shown, store) => view(shown, store, desk, out),
        Reply::Help => out.text(HELP),
    }
}

pub(crate) fn say(
    told: Result<Option<Reply>, Trouble>,
    line: u64,
    desk: &mut Desk,
    out: &mut Output,
) -> io::Result<()> {
    match told {
        Ok(None) => Ok(()),
        Ok(Some(given)) => reply(given, desk, out),
        Err(Trouble::Refused(r)) => refused(r, out),
        Err(Trouble::Wrong(f)) => wrong(f, line, out),
    }
}
