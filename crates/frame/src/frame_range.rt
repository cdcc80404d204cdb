// Ranges of frames, without their end and with it.
ghost use Rattle.std.specs.Prelude.{◌≡◌};
ghost use Rattle.laws.specs.Address.{phys};
ghost use Rattle.laws.specs.Range.{make_range};
ghost use Rattle.table.specs.Level.{bytes_of};
ghost use Rattle.frame.specs.Frame.{start as frame_start, bytes};
ghost use Rattle.frame.specs.Range.{range_of, range_inclusive_of, top_frame};
ghost use Rattle.frame.specs.Range as frames;

use crate::frame::PhysFrame;
use answer::Refusal;
use draw::Draw;
use item::{Item, check_both, numbers};
use phys::{PHYS_SIZE, PhysAddr, Physical};
use range::{Range, RangeInclusive, RangeItem};
use table::PageSize;

pub type PhysFrameRange = Range<PhysFrame>;

pub type PhysFrameRangeInclusive = RangeInclusive<PhysFrame>;

impl PhysFrame {
    // The range from start to end; 7 if their sizes differ.
    pub fn range(start: PhysFrame, end: PhysFrame) -> Result<PhysFrameRange, Refusal>
        ensures { range_of result ≡ make_range (phys 52) (frame_start start) (bytes start) (frame_start end) (bytes end) }
    {
        Range::new(start, end)
    }

    // The range from start to end; 7 if their sizes differ.
    pub fn range_inclusive(
        start: PhysFrame,
        end: PhysFrame,
    ) -> Result<PhysFrameRangeInclusive, Refusal>
        ensures { range_inclusive_of result ≡ make_range (phys 52) (frame_start start) (bytes start) (frame_start end) (bytes end) }
    {
        RangeInclusive::new(start, end)
    }
}

// The topmost frame of a size.
fn top_frame(size: PageSize) -> u64
    ensures { result ≡ top_frame (bytes_of size) }
{
    PHYS_SIZE - size.bytes()
}

// No draw of a range that passes the test leaves the memory, so none is refused 11.
#[tactic(auto, using(crate::proofs::Ranges::draws))]
impl RangeItem for PhysFrame {
    type Space = Physical;

    ghost addresses = { phys 52 };

    ghost kind = { frames.frames };

    ghost nth_below = { frames.nth_below };

    ghost nth_back_below = { frames.nth_back_below };

    ghost nth_through = { frames.nth_through };

    ghost nth_back_through = { frames.nth_back_through };

    fn space() -> Physical {
        Physical
    }

    fn item(self) -> Item {
        Item {
            start: self.start_address.0,
            size: self.size,
        }
    }

    fn placed(self, start: u64) -> PhysFrame {
        PhysFrame {
            start_address: PhysAddr(start),
            size: self.size,
        }
    }

    // Each draw is the one on numbers, behind one test; a function that took the draw would have to take its contract
    // too, and be no plainer.
    fn draw_nth_below(start: Item, end: Item, n: u64) -> Result<Draw, Refusal> {
        check_both(Physical, start, end)?;
        Ok(numbers(start, end).front_below(n))
    }

    fn draw_nth_back_below(start: Item, end: Item, n: u64) -> Result<Draw, Refusal> {
        check_both(Physical, start, end)?;
        Ok(numbers(start, end).back_below(n))
    }

    fn draw_nth_through(start: Item, end: Item, n: u64) -> Result<Draw, Refusal> {
        check_both(Physical, start, end)?;
        Ok(numbers(start, end).front_through(top_frame(start.size), n))
    }

    fn draw_nth_back_through(start: Item, end: Item, n: u64) -> Result<Draw, Refusal> {
        check_both(Physical, start, end)?;
        Ok(numbers(start, end).back_through(n))
    }

    fn draw_next_below(start: Item, end: Item) -> Result<Draw, Refusal> {
        check_both(Physical, start, end)?;
        Ok(numbers(start, end).next_below())
    }

    fn draw_next_back_below(start: Item, end: Item) -> Result<Draw, Refusal> {
        check_both(Physical, start, end)?;
        Ok(numbers(start, end).next_back_below())
    }

    fn draw_next_through(start: Item, end: Item) -> Result<Draw, Refusal> {
        check_both(Physical, start, end)?;
        Ok(numbers(start, end).next_through(top_frame(start.size)))
    }

    fn draw_next_back_through(start: Item, end: Item) -> Result<Draw, Refusal> {
        check_both(Physical, start, end)?;
        Ok(numbers(start, end).next_back_through())
    }
}
