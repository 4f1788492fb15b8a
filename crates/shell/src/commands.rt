// The first word of a line.
ghost use Rattle.std.specs.Prelude.{◌≡◌};
ghost use Rattle.shell.specs.Commands.{command_of};

use std::str;

#[derive(Clone, Copy)]
pub enum Command {
    Start,
    Add,
    Join,
    Close,
    Show,
    Records,
    Index,
    Unitigs,
    State,
    Encode,
    Decode,
    Help,
}

// The command of a name.
#[tactic(auto, using(crate::proofs::Laws::Commands::spelled), unfolding(crate::specs::Commands::command_of))]
fn named(name: &str) -> Option<Command>
    ensures { result ≡ command_of name.now }
{
    match name {
        "start" => Some(Command::Start),
        "add" => Some(Command::Add),
        "join" => Some(Command::Join),
        "close" => Some(Command::Close),
        "show" => Some(Command::Show),
        "records" => Some(Command::Records),
        "index" => Some(Command::Index),
        "unitigs" => Some(Command::Unitigs),
        "state" => Some(Command::State),
        "encode" => Some(Command::Encode),
        "decode" => Some(Command::Decode),
        "help" => Some(Command::Help),
        _ => None,
    }
}

// The command that a word names.
pub fn command_of(word: &[u8]) -> Option<Command>
    ensures { result ≡ command_of word.now }
{
    named(str::from_utf8(word).ok()?)
}
