// Input in chunks, chunks to lines, in fixed buffers, since the program allocates nothing.
use crate::output::Output;
use shell::fields::{front, is_line_end, part, starts_comment};
use shell::reasons::Fault;
use shell::texts;
use std::io;
use std::io::{Read, Stdin};

#[derive(Drop)]
pub struct Input {
    pub from: Stdin,
    // what one read gave, and how far it was taken
    pub bytes: [u8; 16384],
    pub got: usize,
    pub taken: usize,
    // whether these are the last
    pub last: bool,
}

// A line: its number and its bytes so far.
#[derive(Drop)]
pub struct Line {
    pub number: u64,
    pub bytes: [u8; 786432],
    pub used: usize,
}

impl Input {
    // The next bytes of input, which one read gives, behind the last of which one line end more stands: it closes a last line that has none.
    fn fetch(&mut self) -> io::Result<()> {
        self.got = self.from.read(&mut self.bytes)?;
        self.taken = 0;
        if self.got == 0 {
            self.bytes[0] = b'\n';
            self.got = 1;
            self.last = true;
        }
        Ok(())
    }

    // The bytes up to the next line end, behind those that the line has; whether the line is whole.
    fn take(&mut self, line: &mut Line) -> bool {
        let rest = part(&self.bytes, self.taken, self.got);
        let end = rest.iter().position(|b| is_line_end(*b));
        let kept = front(rest, end.unwrap_or(rest.len()));
        line.used = texts::put(kept, line.used, &mut line.bytes);
        self.taken = match end {
            Some(n) => self.taken.saturating_add(n).saturating_add(1),
            None => self.got,
        };
        end.is_some()
    }

    // The next line into one that the caller holds, since nothing is allocated; answers whether there is one. Where no input is left the answers go
    // out before more is read, so that whoever waits for one has it. std says nothing of how much of standard input is left, so no measure falls from
    // turn to turn, and a loop without an end would need the word Wait: the turns are counted, up to a number that no run reaches.
    pub(crate) fn next_line(&mut self, line: &mut Line, out: &mut Output) -> io::Result<bool> {
        line.number = line.number.wrapping_add(1);
        line.used = 0;
        for _ in 0..u64::MAX {
            if self.taken < self.got {
                if self.take(line) {
                    return Ok(true);
                }
            } else {
                out.flush()?;
                if self.last {
                    break;
                }
                self.fetch()?;
            }
        }
        Ok(false)
    }
}

impl Line {
    // The line without its comment. A full buffer says that the line was too long for it.
    pub(crate) fn text(&self) -> Result<&[u8], Fault> {
        if self.bytes.len() <= self.used {
            return Err(Fault::Long);
        }
        let line = front(&self.bytes, self.used);
        let end = line.iter().position(|b| starts_comment(*b));
        Ok(front(line, end.unwrap_or(line.len())))
    }
}
