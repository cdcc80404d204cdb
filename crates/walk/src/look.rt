// What an entry above level 1 says.
ghost use Rattle.std.specs.Prelude.{◌≡◌, ◌+◌};
ghost use Rattle.paging.specs.Entry.{entry_by};
ghost use Rattle.walk.specs.Look.{seen};

use crate::entry::{address_in, frame_in, is_large, is_present};
use crate::span::within_span;

// An entry that is present comes with its word, which has its rights.
#[derive(Clone, Copy, Debug, PartialEq, Eq)]
pub enum Look {
    Absent,
    Reserved,
    // The first frame that the entry maps.
    Leaf(u64, u64),
    // The address of the table one level down.
    Next(u64, u64),
}

// What the word says in a table of level above + 2, where the processor reserves these bits.
#[tactic(auto, using(crate::proofs::Seen::seen_absent, crate::proofs::Seen::seen_masked, crate::proofs::Seen::seen_table, crate::proofs::Seen::seen_high, crate::proofs::Seen::seen_leaf, crate::proofs::Seen::seen_misaligned))]
pub fn look_word(word: u64, above: u64, reserved: u64) -> Look
    ensures { result ≡ seen word (entry_by reserved (above + 2) word) }
{
    if !is_present(word) {
        return Look::Absent;
    }
    if word & reserved != 0 {
        return Look::Reserved;
    }
    if !is_large(word) {
        return Look::Next(address_in(word), word);
    }
    if 2 <= above {
        return Look::Reserved;
    }
    let frame = frame_in(word);
    let rest = within_span(frame, above + 1);
    if rest < 2 {
        Look::Leaf(frame - rest, word)
    } else {
        Look::Reserved
    }
}
