// Answers, stored: each gives its status, and its words at the start of the lent slice.
#![tactic(auto, unfolding(status::specs::Convention::leaves))]

ghost use Rattle.std.specs.Prelude.{◌≡◌};
ghost use Rattle.answer.specs.Answers.{outcome_of, optional_of};
ghost use Rattle.status.specs.Convention.{left, leaves, word};

use crate::words::Word;
use answer::Refusal;
use status::{Status, give};

pub fn give_word<T: Word>(answer: Result<T, Refusal>, out: &mut [u64]) -> u8
    ensures { left result out.new ≡ leaves (word (outcome_of T.word_of answer)) out.old }
{
    let word = match answer {
        Ok(x) => x.word(),
        Err(refusal) => return refusal.number(),
    };
    give([word], out)
}

// The same of a call that may have no such item.
pub fn give_step<T: Word>(answer: Result<Option<T>, Refusal>, out: &mut [u64]) -> u8
    ensures { left result out.new ≡ leaves (word (optional_of T.word_of answer)) out.old }
{
    match answer {
        Ok(Some(x)) => give([x.word()], out),
        Ok(None) => Status::NoItem as u8,
        Err(refusal) => refusal.number(),
    }
}
