// Refusals and faults of a line, in words.
ghost use Rattle.std.specs.Prelude.{◌≡◌};
ghost use Rattle.shell.specs.Texts.{put_at};
ghost use Rattle.shell.specs.Reasons.{reason_of, fault_of};

use crate::texts::put;
use base::Refusal;

// What is wrong with a line that cannot be read.
#[derive(Clone, Copy, Debug, PartialEq, Eq)]
pub enum Fault {
    Unknown,
    Missing,
    Extra,
    Digits,
    Large,
    Many,
    Pair,
    Hex,
    Way,
    Length,
    Long,
    Unstarted,
}

impl Fault {
    // What is wrong, in words.
    fn text(self) -> &'static [u8]
        ensures { result.now ≡ fault_of self }
    {
        match self {
            Fault::Unknown => b"unknown command (try help)",
            Fault::Missing => b"words are missing",
            Fault::Extra => b"more words than the command takes",
            Fault::Digits => b"not a number",
            Fault::Large => b"number too large",
            Fault::Many => b"more items than the limit (see help)",
            Fault::Pair => b"not OFFSET:COORDINATE",
            Fault::Hex => b"not hexadecimal digits, two a byte",
            Fault::Way => b"neither forward nor reverse, or neither line nor cycle",
            Fault::Length => b"buffer length above the limit (see help)",
            Fault::Long => b"line too long",
            Fault::Unstarted => b"no store yet: start it first",
        }
    }
}

// A refusal: its number, and its reason in words.
fn reason(r: Refusal) -> &'static [u8]
    ensures { result.now ≡ reason_of r }
{
    match r {
        Refusal::Colors => b"1 colour count or worker outside its limits",
        Refusal::Ids => b"2 ids not strictly ascending, or not below the colour count",
        Refusal::Space => b"3 not enough space",
        Refusal::Cut => b"4 input ends too early",
        Refusal::Damaged => b"5 not a written form",
        Refusal::Runs => b"6 runs do not start at 0, do not ascend, or reach the vertex count",
        Refusal::Vertices => b"7 vertex count outside its limits",
        Refusal::Junction => b"8 piece does not begin where the open unitig ends",
        Refusal::Coordinate => b"9 coordinate names no set of this store",
        Refusal::Number => b"10 number is neither the last nor the next",
        Refusal::Arguments => b"11 last number with another call or other arguments",
        Refusal::Unopened => b"13 no unitig is open",
        Refusal::Place => b"14 no such closed unitig or vertex",
        Refusal::Altered => b"15 state or buffers were altered",
        Refusal::Acyclic => b"16 open unitig does not walk back to its first vertex",
    }
}

pub fn put_reason(r: Refusal, at: usize, out: &mut [u8]) -> usize
    ensures { (result, out.new) ≡ put_at (reason_of r) at out.old }
{
    put(reason(r), at, out)
}

pub fn put_fault(f: Fault, at: usize, out: &mut [u8]) -> usize
    ensures { (result, out.new) ≡ put_at (fault_of f) at out.old }
{
    put(f.text(), at, out)
}
