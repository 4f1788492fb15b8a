// What lies in a buffer up to its used end; behind that each place is to hold 9 still. Counts become a usize by `as`, since there is no `From` for it
// from u32.
use crate::args::StepError;
use crate::bench::Bench;
use crate::buffers::Buffer;
use crate::replies::{Reply, Said};
use shell::fields::front;
use shell::words::Words;
use std::alloc::{AllocError, Global};

// The places as what `said` makes of their count and of them.
fn places_as<T, F>(
    alloc: Global,
    buffer: &Buffer<T>,
    used: usize,
    said: F,
) -> Result<Reply, AllocError>
where
    T: Copy + PartialEq + From<u8>,
    F: FnOnce(usize, Vec<T>) -> Said,
    requires { F.IsAlwaysCallable said }
{
    let places = front(&buffer.places, used).to_vec(alloc)?;
    Ok(Reply::Called {
        answer: Ok(said(used, places)),
        kept: buffer.is_fresh_from(used),
    })
}

fn bytes(count: usize, bytes: Vec<u8>) -> Said {
    Said::Bytes { count, bytes }
}

fn entries(_: usize, words: Vec<u64>) -> Said {
    Said::Entries(words)
}

fn runs(count: usize, words: Vec<u64>) -> Said {
    Said::Runs {
        count,
        runs: words,
        of: None,
    }
}

impl Bench {
    // view BUFFER
    pub(crate) fn view(&mut self, mut words: Words<'_>) -> Result<Reply, StepError> {
        let name = words.next().unwrap_or(b"");
        let reply = self.seen(name)?;
        self.keep_seen(name)?;
        Ok(reply)
    }

    fn seen(&self, name: &[u8]) -> Result<Reply, AllocError> {
        let alloc = self.alloc;
        let b = &self.state.buffers;
        let store = &self.state.store;
        match name {
            b"records" => places_as(alloc, &b.records, store.cell.records.used, bytes),
            b"index" => places_as(alloc, &b.index, store.cell.sets as usize + 1, entries),
            b"opened" => places_as(alloc, &b.opened, store.cell.opened.used, runs),
            b"held" => places_as(alloc, &b.held, store.cell.held.used, runs),
            b"runs" => places_as(alloc, &b.runs, store.shared.runs.used, bytes),
            _ => places_as(alloc, &b.table, 2 * store.shared.unitigs as usize, entries),
        }
    }

    // The words that were seen lie in the output of the run lists then.
    fn keep_seen(&mut self, name: &[u8]) -> Result<(), AllocError> {
        let b = &self.state.buffers;
        let seen = match name {
            b"records" | b"runs" => return Ok(()),
            b"index" => &b.index,
            b"opened" => &b.opened,
            b"held" => &b.held,
            _ => &b.table,
        };
        let places = seen.places.clone()?;
        self.out.places = places;
        Ok(())
    }
}
