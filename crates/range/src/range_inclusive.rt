// A range of pages or of frames, with its end.
ghost use Rattle.std.specs.Prelude.{◌≡◌};
ghost use Rattle.answer.specs.Answers.{bool_of, u64_of, outcome_of};
ghost use Rattle.laws.specs.Range.{make_range, empty_through, count_through, bytes_through};
ghost use Rattle.laws.specs.Kind.{settled};
ghost use Rattle.draw.specs.Draws.{draw_of};
ghost use Rattle.range.specs.Ranges.{ends_inclusive_of, made_inclusive, answered, nth_inclusive_of};

use crate::range_item::RangeItem;
use answer::Refusal;
use draw::Draw;
use item::{bytes_through, check_both, count_through, is_empty_through};

#[derive(Clone, Copy, Debug, PartialEq, Eq)]
pub struct RangeInclusive<T> {
    pub start: T,
    pub end: T,
}

#[tactic(auto, using(laws::proofs::Kind::guarded_gives, laws::proofs::Kind::guarded_refuses))]
impl<T: RangeItem> RangeInclusive<T> {
    // The range from start to end; 7 if their sizes differ.
    pub fn new(start: T, end: T) -> Result<RangeInclusive<T>, Refusal>
        ensures { outcome_of (ends_inclusive_of T.kind) result ≡ make_range T.addresses (T.kind.item start).start (T.kind.item start).bytes (T.kind.item end).start (T.kind.item end).bytes }
    {
        check_both(T::space(), start.item(), end.item())?;
        Ok(RangeInclusive { start, end })
    }

    pub fn is_empty(self) -> Result<bool, Refusal>
        ensures { bool_of result ≡ empty_through T.addresses (T.kind.item self.start).start (T.kind.item self.start).bytes (T.kind.item self.end).start (T.kind.item self.end).bytes }
    {
        is_empty_through(T::space(), self.start.item(), self.end.item())
    }

    // How many items the range has.
    pub fn len(self) -> Result<u64, Refusal>
        ensures { u64_of result ≡ count_through T.addresses (T.kind.item self.start).start (T.kind.item self.start).bytes (T.kind.item self.end).start (T.kind.item self.end).bytes }
    {
        count_through(T::space(), self.start.item(), self.end.item())
    }

    // How many bytes the range has.
    pub fn size(self) -> Result<u64, Refusal>
        ensures { u64_of result ≡ bytes_through T.addresses (T.kind.item self.start).start (T.kind.item self.start).bytes (T.kind.item self.end).start (T.kind.item self.end).bytes }
    {
        bytes_through(T::space(), self.start.item(), self.end.item())
    }

    // What a draw on the numbers gives; leaves the range after it. For draws at another space than the item's own.
    pub fn settle(&mut self, draw: Draw) -> Option<T>
        ensures { answered T.kind (Ok result) self.new ≡ settled T.kind made_inclusive self.old.start self.old.end (draw_of draw) }
    {
        let start = self.start;
        *self = RangeInclusive {
            start: start.placed(draw.start),
            end: self.end.placed(draw.end),
        };
        draw.item.map(|a| start.placed(a))
    }

    // The first item; leaves the range from just past it.
    pub fn next(&mut self) -> Result<Option<T>, Refusal>
        ensures { answered T.kind result self.new ≡ nth_inclusive_of T.kind T.nth_through self.old 0 }
    {
        let draw = T::draw_next_through(self.start.item(), self.end.item())?;
        Ok(self.settle(draw))
    }

    // The item n places from the front; leaves the range from just past it.
    pub fn nth(&mut self, n: u64) -> Result<Option<T>, Refusal>
        ensures { answered T.kind result self.new ≡ nth_inclusive_of T.kind T.nth_through self.old n }
    {
        let draw = T::draw_nth_through(self.start.item(), self.end.item(), n)?;
        Ok(self.settle(draw))
    }

    // The last item; leaves the range up to it.
    pub fn next_back(&mut self) -> Result<Option<T>, Refusal>
        ensures { answered T.kind result self.new ≡ nth_inclusive_of T.kind T.nth_back_through self.old 0 }
    {
        let draw = T::draw_next_back_through(self.start.item(), self.end.item())?;
        Ok(self.settle(draw))
    }

    // The item n places from the back; leaves the range up to it.
    pub fn nth_back(&mut self, n: u64) -> Result<Option<T>, Refusal>
        ensures { answered T.kind result self.new ≡ nth_inclusive_of T.kind T.nth_back_through self.old n }
    {
        let draw = T::draw_nth_back_through(self.start.item(), self.end.item(), n)?;
        Ok(self.settle(draw))
    }
}
