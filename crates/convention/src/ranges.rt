// Ranges and draws, stored. The two types of ranges have a function each, and so have their choices: a trait over
// both, with an implementation for each, would be no plainer.
#![tactic(auto, unfolding(status::specs::Convention::leaves))]

ghost use Rattle.std.specs.Prelude.{◌≡◌};
ghost use Rattle.answer.specs.Answers.{outcome_of, optional_of};
ghost use Rattle.range.specs.Ranges.{ends_of, ends_inclusive_of};
ghost use Rattle.status.specs.Convention.{left, leaves};
ghost use Rattle.convention.specs.Ranges.{pair, draw_words};

use answer::Refusal;
use range::{Range, RangeInclusive, RangeItem};
use status::give;

pub fn give_range<T: RangeItem>(answer: Result<Range<T>, Refusal>, out: &mut [u64]) -> u8
    ensures { left result out.new ≡ leaves (pair (outcome_of (ends_of T.kind) answer)) out.old }
{
    match answer {
        Ok(range) => give([range.start.item().start, range.end.item().start], out),
        Err(refusal) => refusal.number(),
    }
}

pub fn give_range_inclusive<T: RangeItem>(
    answer: Result<RangeInclusive<T>, Refusal>,
    out: &mut [u64],
) -> u8
    ensures { left result out.new ≡ leaves (pair (outcome_of (ends_inclusive_of T.kind) answer)) out.old }
{
    match answer {
        Ok(range) => give([range.start.item().start, range.end.item().start], out),
        Err(refusal) => refusal.number(),
    }
}

// The answer of a draw, and where the range left starts and ends.
pub fn give_draw<T: RangeItem>(
    answer: Result<Option<T>, Refusal>,
    start: T,
    end: T,
    out: &mut [u64],
) -> u8
    ensures { left result out.new ≡ leaves (draw_words (optional_of T.kind.item answer) (T.kind.item start).start (T.kind.item end).start) out.old }
{
    let start = start.item().start;
    let end = end.item().start;
    match answer {
        Ok(Some(x)) => give([1, x.item().start, start, end], out),
        Ok(None) => give([0, 0, start, end], out),
        Err(refusal) => refusal.number(),
    }
}
