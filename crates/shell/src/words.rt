// A line, and how far its words were taken.
ghost use Rattle.std.specs.Prelude.{◌≡◌, length};
ghost use Rattle.std.specs.Option.{option_copied};
ghost use Rattle.shell.specs.Fields.{field_at};
ghost use Rattle.shell.specs.Lists.{item_at, list_from};
ghost use Rattle.shell.specs.Words.{taken, told};

use crate::fields::{next_field, part};
use crate::lists;
use crate::lists::Word;
use crate::reasons::Fault;

#[derive(Clone, Copy)]
pub struct Words<'a> {
    pub line: &'a [u8],
    pub at: usize,
}

impl<'a> Words<'a> {
    pub fn of(line: &'a [u8]) -> Words<'a>
        ensures line { result.line.now ≡ line.now }
        ensures start { result.at ≡ 0 }
    {
        Words { line, at: 0 }
    }

    // The next word. Not as an `Iterator`: its `next_gives` would have to say these two clauses over again, and no caller takes word after word
    // in a `for`: a command takes each as what has to stand there, by this method or by `value`.
    pub fn next(&mut self) -> Option<&'a [u8]>
        ensures line { self.new.line.now ≡ self.old.line.now }
        ensures word { (option_copied result, self.new.at) ≡ taken self.old.line.now self.old.at (field_at self.old.line.now self.old.at) }
    {
        let field = next_field(self.line, self.at)?;
        self.at = field.end;
        Some(part(self.line, field.start, field.end))
    }

    // What the next word says.
    pub fn value<T: Word>(&mut self) -> Result<Option<T>, Fault>
        ensures line { self.new.line.now ≡ self.old.line.now }
        ensures value { (result, self.new.at) ≡ told self.old.at (item_at T.said self.old.line.now self.old.at) }
    {
        let Some(item) = lists::item_at(self.line, self.at)? else {
            return Ok(None);
        };
        self.at = item.next;
        Ok(Some(item.value))
    }

    // What the words that are left say, to the front of `out`; answers how many there are.
    pub fn values<T: Word>(self, out: &mut [T]) -> Result<usize, Fault>
        ensures { (result, out.new) ≡ list_from T.said (length self.entry.line.now) self.entry.line.now self.entry.at 0 out.old }
    {
        lists::list_at(self.line, self.at, out)
    }
}
