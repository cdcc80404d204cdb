// Ranges of items, by their first item and their end.
ghost use Rattle.std.specs.Prelude.{◌≡◌};
ghost use Rattle.answer.specs.Answers.{bool_of, u64_of};
ghost use Rattle.table.specs.Level.{bytes_of};
ghost use Rattle.laws.specs.Range.{empty_below, empty_through, count_below, count_through, bytes_below, bytes_through};

use crate::item::{Item, check_both};
use address::Addresses;
use answer::Refusal;
use draw::NumberRange;

// The numbers of a range by its first item and its end, which have one size.
pub fn numbers(start: Item, end: Item) -> NumberRange
    ensures { (result.start ≡ start.start) × (result.end ≡ end.start) × (result.size ≡ start.size) }
{
    NumberRange {
        start: start.start,
        end: end.start,
        size: start.size,
    }
}

// The range by the positions of its ends, which count no gap.
fn counted<S: Addresses>(space: S, start: Item, end: Item) -> NumberRange
    ensures { (result.start ≡ (S.space space).position start.start) × (result.end ≡ (S.space space).position end.start) × (result.size ≡ start.size) }
{
    NumberRange {
        start: space.position(start.start),
        end: space.position(end.start),
        size: start.size,
    }
}

#[tactic(auto, using(answer::proofs::Refused::refused_number))]
pub fn is_empty_below<S: Addresses>(space: S, start: Item, end: Item) -> Result<bool, Refusal>
    ensures { bool_of result ≡ empty_below (S.space space) start.start (bytes_of start.size) end.start (bytes_of end.size) }
{
    check_both(space, start, end)?;
    Ok(end.start <= start.start)
}

#[tactic(auto, using(answer::proofs::Refused::refused_number))]
pub fn is_empty_through<S: Addresses>(space: S, start: Item, end: Item) -> Result<bool, Refusal>
    ensures { bool_of result ≡ empty_through (S.space space) start.start (bytes_of start.size) end.start (bytes_of end.size) }
{
    check_both(space, start, end)?;
    Ok(end.start < start.start)
}

// How many items an exclusive range has.
#[tactic(auto, using(answer::proofs::Refused::refused_number))]
pub fn count_below<S: Addresses>(space: S, start: Item, end: Item) -> Result<u64, Refusal>
    ensures { u64_of result ≡ count_below (S.space space) start.start (bytes_of start.size) end.start (bytes_of end.size) }
{
    check_both(space, start, end)?;
    Ok(counted(space, start, end).len_below())
}

// How many items an inclusive range has.
#[tactic(auto, using(answer::proofs::Refused::refused_number))]
pub fn count_through<S: Addresses>(space: S, start: Item, end: Item) -> Result<u64, Refusal>
    ensures { u64_of result ≡ count_through (S.space space) start.start (bytes_of start.size) end.start (bytes_of end.size) }
{
    check_both(space, start, end)?;
    Ok(counted(space, start, end).len_through())
}

// How many bytes an exclusive range has.
#[tactic(auto, using(answer::proofs::Refused::refused_number, laws::proofs::Run::fits_below))]
pub fn bytes_below<S: Addresses>(space: S, start: Item, end: Item) -> Result<u64, Refusal>
    ensures { u64_of result ≡ bytes_below (S.space space) start.start (bytes_of start.size) end.start (bytes_of end.size) }
{
    check_both(space, start, end)?;
    Ok(counted(space, start, end).len_below() * start.size.bytes())
}

// How many bytes an inclusive range has.
#[tactic(auto, using(answer::proofs::Refused::refused_number))]
pub fn bytes_through<S: Addresses>(space: S, start: Item, end: Item) -> Result<u64, Refusal>
    ensures { u64_of result ≡ bytes_through (S.space space) start.start (bytes_of start.size) end.start (bytes_of end.size) }
{
    check_both(space, start, end)?;
    Ok(counted(space, start, end).len_through() * start.size.bytes())
}
