// An answer's words, stored at the start of the lent slice.
ghost use Rattle.std.specs.Prelude.{◌≡◌};
ghost use Rattle.answer.specs.Outcome.{gives};
ghost use Rattle.status.specs.Convention.{left, leaves};

use crate::status::Status;

// Stores the words, however many, if there is room for all, and answers the status.
#[tactic(auto, using(std::proofs::lemmas::Bool::Decides::nat_tests), unfolding(crate::specs::Convention::leaves))]
pub fn give<const N: usize>(words: [u64; N], out: &mut [u64]) -> u8
    ensures { left result out.new ≡ leaves (gives words.entry) out.old }
{
    let Some(room) = out.first_chunk_mut::<N>() else {
        return Status::NoRoom as u8;
    };
    *room = words;
    Status::Answered as u8
}
