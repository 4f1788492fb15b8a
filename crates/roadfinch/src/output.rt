// Answers into a buffer, which goes out when it fills. The buffer is fixed, since the program allocates nothing, and the text is put there by the
// proved functions of shell.
use base::Refusal;
use shell::fields::front;
use shell::reasons::Fault;
use shell::{reasons, texts};
use std::io;
use std::io::{Stdout, Write};

#[derive(Drop)]
pub struct Output {
    pub bytes: [u8; 16384],
    // how many bytes wait
    pub used: usize,
    pub to: Stdout,
}

impl Output {
    // Writes out what waits.
    pub(crate) fn flush(&mut self) -> io::Result<()> {
        self.to.write_all(front(&self.bytes, self.used))?;
        self.used = 0;
        Ok(())
    }

    // Space for a piece of text, which is never more than 1,536 bytes.
    fn make_room(&mut self) -> io::Result<()> {
        if self.used < 14848 {
            return Ok(());
        }
        self.flush()
    }

    pub(crate) fn text(&mut self, text: &[u8]) -> io::Result<()> {
        self.make_room()?;
        self.used = texts::put(text, self.used, &mut self.bytes);
        Ok(())
    }

    pub(crate) fn number(&mut self, n: u64) -> io::Result<()> {
        self.make_room()?;
        self.used = texts::put_decimal(n, self.used, &mut self.bytes);
        Ok(())
    }

    // A refusal's number and its reason.
    pub(crate) fn reason(&mut self, r: Refusal) -> io::Result<()> {
        self.make_room()?;
        self.used = reasons::put_reason(r, self.used, &mut self.bytes);
        Ok(())
    }

    // What is wrong with a line.
    pub(crate) fn fault(&mut self, f: Fault) -> io::Result<()> {
        self.make_room()?;
        self.used = reasons::put_fault(f, self.used, &mut self.bytes);
        Ok(())
    }

    // A name and a number.
    pub(crate) fn named(&mut self, name: &[u8], n: u64) -> io::Result<()> {
        self.text(name)?;
        self.number(n)
    }

    // Two digits a byte.
    pub(crate) fn hex(&mut self, bytes: &[u8]) -> io::Result<()> {
        for b in bytes {
            self.make_room()?;
            self.used = texts::put_byte(*b, self.used, &mut self.bytes);
        }
        Ok(())
    }

    // A blank before each run, which is OFFSET:COORDINATE.
    pub(crate) fn runs(&mut self, runs: &[u64]) -> io::Result<()> {
        for run in runs {
            self.named(b" ", u64::from(runs::words::offset(*run)))?;
            self.named(b":", runs::words::coordinate(*run))?;
        }
        Ok(())
    }
}
