// What a line asks for, done. Numbers become lengths by `as`: there is no `From` for it from u32 or u64, and `try_from` would add a
// case that can't come.
use crate::memory::Memory;
use crate::parse;
use crate::replies::{Reply, Trouble, View};
use codec::records::{read_color_record, write_color_record};
use shell::commands::{Command, command_of};
use shell::fields::{front, split_front};
use shell::hexes::unhex;
use shell::lengths::Lengths;
use shell::reasons::Fault;
use shell::words::Words;

// The store with its memory, and where the ids, the runs and the bytes of one line lie. Fixed buffers, as the store's: nothing is allocated.
#[derive(Drop)]
pub struct Desk {
    pub memory: Memory,
    pub ids: [u32; 65536],
    pub piece: [u64; 65536],
    pub space: [u8; 393216],
}

fn help(mut words: Words) -> Result<Reply, Trouble> {
    parse::end(&mut words)?;
    Ok(Reply::Help)
}

impl Desk {
    // A line without its comment. Where there is no word there is no reply.
    pub(crate) fn obey(&mut self, line: &[u8]) -> Result<Option<Reply>, Trouble> {
        let mut words = Words::of(line);
        let Some(name) = words.next() else {
            return Ok(None);
        };
        let command = command_of(name).ok_or(Fault::Unknown)?;
        Ok(Some(self.reply(command, words)?))
    }

    fn reply(&mut self, command: Command, words: Words) -> Result<Reply, Trouble> {
        match command {
            Command::Start => self.start(words),
            Command::Add => self.add(words),
            Command::Join => self.join(words),
            Command::Close => self.close(words),
            Command::Show => self.show(words),
            Command::Encode => self.encode(words),
            Command::Decode => self.decode(words),
            Command::Records => self.view(View::Records, words),
            Command::Index => self.view(View::Index, words),
            Command::Unitigs => self.view(View::Unitigs, words),
            Command::State => self.view(View::State, words),
            Command::Help => help(words),
        }
    }

    // records | index | unitigs | state
    fn view(&self, view: View, mut words: Words) -> Result<Reply, Trouble> {
        parse::end(&mut words)?;
        Ok(Reply::View(view, self.memory.started()?))
    }

    // start N W RECORDS INDEX OPEN HELD RUNS TABLE
    fn start(&mut self, words: Words) -> Result<Reply, Trouble> {
        let count = words.values(&mut self.ids)?;
        let given = front(&self.ids, count);
        let [colors, worker, records, index, opened, held, runs, table] = given else {
            let fault = if count < 8 {
                Fault::Missing
            } else {
                Fault::Extra
            };
            return Err(Trouble::Wrong(fault));
        };
        let lengths = Lengths::from([*records, *index, *opened, *held, *runs, *table]);
        self.memory.start(*colors, *worker, lengths)?;
        Ok(Reply::Done(0))
    }

    // add NUMBER [ID..]
    fn add(&mut self, mut words: Words) -> Result<Reply, Trouble> {
        self.memory.started()?;
        let number = parse::number(&mut words)?;
        let count = words.values(&mut self.ids)?;
        let ids = front(&self.ids, count);
        Ok(Reply::Done(self.memory.add(number, ids)?))
    }

    // join NUMBER COUNT forward|reverse OFFSET:COORDINATE..
    fn join(&mut self, mut words: Words) -> Result<Reply, Trouble> {
        self.memory.started()?;
        let number = parse::number(&mut words)?;
        let n = parse::number(&mut words)?;
        let reversed = parse::is_reversed(&mut words)?;
        let count = words.values(&mut self.piece)?;
        let piece = front(&self.piece, count);
        Ok(Reply::Done(self.memory.join(number, n, reversed, piece)?))
    }

    // close NUMBER line · close NUMBER cycle PIVOT
    fn close(&mut self, mut words: Words) -> Result<Reply, Trouble> {
        self.memory.started()?;
        let number = parse::number(&mut words)?;
        let way = parse::way(&mut words)?;
        Ok(Reply::Done(self.memory.close(number, way)?))
    }

    // show UNITIG VERTEX [ROOM]
    fn show(&mut self, words: Words) -> Result<Reply, Trouble> {
        self.memory.started()?;
        let all = self.ids.len();
        let count = words.values(&mut self.ids)?;
        let (unitig, vertex, room) = match front(&self.ids, count) {
            [unitig, vertex] => (*unitig, *vertex, all),
            [unitig, vertex, room] => (*unitig, *vertex, *room as usize),
            [_, _, _, ..] => return Err(Trouble::Wrong(Fault::Extra)),
            _ => return Err(Trouble::Wrong(Fault::Missing)),
        };
        if all < room {
            return Err(Trouble::Wrong(Fault::Length));
        }
        let ids = split_front(&mut self.ids, room).0;
        let given = self.memory.show(unitig, vertex, ids)?;
        Ok(Reply::Ids(given as usize))
    }

    // encode N [ID..]: the record of a set, without a store.
    fn encode(&mut self, mut words: Words) -> Result<Reply, Trouble> {
        let n = parse::number(&mut words)?;
        let count = words.values(&mut self.ids)?;
        let ids = front(&self.ids, count);
        Ok(Reply::Bytes(write_color_record(n, ids, &mut self.space)?))
    }

    // decode N HEX: the set of a record.
    fn decode(&mut self, mut words: Words) -> Result<Reply, Trouble> {
        let n = parse::number(&mut words)?;
        let len = unhex(parse::last_word(&mut words)?, &mut self.space)?;
        let record = front(&self.space, len);
        Ok(Reply::Ids(read_color_record(n, record, &mut self.ids)?.items))
    }
}
