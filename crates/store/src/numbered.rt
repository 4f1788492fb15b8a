// What every numbered call tests after 15: 10, then whether the number is the last one, whose call is repeated or 11, or the next.
ghost use Rattle.std.specs.Prelude.{◌≡◌, Bool};
ghost use Rattle.store.specs.Numbered.{Test, sequence_of, repeated, numbered};
ghost use Rattle.store.specs.Inside.Gates.{Only};

use crate::state::Cell;
use base::Refusal;

// Where the number of a call stands that is not out of sequence: at the last accepted one, or at the next.
#[derive(Clone, Copy, Debug, PartialEq, Eq)]
pub enum Sequence {
    Repeat,
    New,
}

// The last number: the answer again for the same call, otherwise 11.
#[tactic(auto, using(base::proofs::Tests::tests), unfolding(crate::specs::Numbered::repeated))]
fn repeated(same: bool, answer: u64) -> Result<Option<u64>, Refusal>
    ensures { result ≡ repeated same answer }
{
    if same {
        Ok(Some(answer))
    } else {
        Err(Refusal::Arguments)
    }
}

impl Cell {
    #[tactic(auto, using(base::proofs::Tests::tests), unfolding(crate::specs::Numbered::sequence_of))]
    fn sequence(self, number: u32) -> Result<Sequence, Refusal>
        ensures { result ≡ sequence_of self.number number }
    {
        let last = self.number;
        if number == 0 {
            return Err(Refusal::Number);
        }
        if number == last {
            return Ok(Sequence::Repeat);
        }
        // not last + 1, which could wrap
        if number - 1 == last {
            return Ok(Sequence::New);
        }
        Err(Refusal::Number)
    }

    // What is found of a numbered call after 15: 10, or the answer of the call that it repeats, or 11, or what its own tests find;
    // none where it may go. Whether the last call is the same is asked at the last number alone, and the tests at the next alone.
    #[tactic(auto, unfolding(crate::specs::Numbered::numbered, crate::specs::Numbered::by_sequence, crate::specs::Numbered::tested))]
    pub(crate) fn gate<S: FnOnce() -> bool + Drop, T: FnOnce() -> Result<(), Refusal> + Drop>(
        self,
        number: u32,
        same: S,
        test: T,
    ) -> Result<Option<u64>, Refusal>
        requires { (S.pre same) × (T.pre test) }
        ensures { (again : Bool) (tests : Test) → Only (S.post same) again → Only (T.post test) tests → result ≡ numbered self number again tests }
    {
        match self.sequence(number)? {
            Sequence::Repeat => repeated(same(), self.answer),
            Sequence::New => {
                test()?;
                Ok(None)
            }
        }
    }
}
