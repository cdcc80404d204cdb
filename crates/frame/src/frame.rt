// A physical frame: the source's names, a line each over what `item` has for pages too.
ghost use Rattle.std.specs.Prelude.{◌≡◌};
ghost use Rattle.answer.specs.Answers.{u64_of};
ghost use Rattle.table.specs.Level.{bytes_of};
ghost use Rattle.phys.specs.Answers.{phys_of};
ghost use Rattle.laws.specs.Address.{phys};
ghost use Rattle.laws.specs.Item.{from_start, containing, start_of, size_of, plus_item, minus_item, distance_item};
ghost use Rattle.frame.specs.Frame.{start, bytes, frame_at, frame_of, from_pfn, pfn_of};

use answer::Refusal;
use item::Item;
use phys::{PHYS_SIZE, PhysAddr, Physical};
use range::RangeItem;
use table::PageSize;

#[derive(Clone, Copy, Debug, PartialEq, Eq)]
pub struct PhysFrame {
    pub start_address: PhysAddr,
    pub size: PageSize,
}

// The frame with an item's start and size.
impl From<Item> for PhysFrame {
    ghost from_gives = { λ item frame. frame ≡ frame_at item.size item.start };

    fn from(item: Item) -> PhysFrame {
        PhysFrame {
            start_address: PhysAddr(item.start),
            size: item.size,
        }
    }
}

impl PhysFrame {
    // The frame that starts at this address; 3 if it is no multiple of the size.
    pub fn from_start_address(address: PhysAddr, size: PageSize) -> Result<PhysFrame, Refusal>
        ensures { frame_of result ≡ from_start (phys 52) address.0 (bytes_of size) }
    {
        item::from_start(Physical, address.0, size).map(PhysFrame::from)
    }

    // The frame with this number; 12 if it would start at 2^52 or more.
    #[tactic(auto, using(crate::proofs::Number::numbers))]
    pub fn try_from_pfn(pfn: u64, size: PageSize) -> Result<PhysFrame, Refusal>
        ensures { frame_of result ≡ from_pfn pfn (bytes_of size) }
    {
        if size.count(PHYS_SIZE) <= pfn {
            return Err(Refusal::PfnTooLarge);
        }
        Ok(PhysFrame {
            start_address: PhysAddr(pfn * size.bytes()),
            size,
        })
    }

    // The same as `try_from_pfn`: the source has both, and C calls both; where one panics there, both refuse here.
    pub fn from_pfn(pfn: u64, size: PageSize) -> Result<PhysFrame, Refusal>
        ensures { frame_of result ≡ from_pfn pfn (bytes_of size) }
    {
        PhysFrame::try_from_pfn(pfn, size)
    }

    // The frame that this address is in.
    pub fn containing_address(address: PhysAddr, size: PageSize) -> Result<PhysFrame, Refusal>
        ensures { frame_of result ≡ containing (phys 52) address.0 (bytes_of size) }
    {
        item::containing(Physical, address.0, size).map(PhysFrame::from)
    }

    pub fn start_address(self) -> Result<PhysAddr, Refusal>
        ensures { phys_of result ≡ start_of (phys 52) (start self) (bytes self) }
    {
        item::start_of(Physical, self.item()).map(PhysAddr)
    }

    // The size in bytes.
    pub fn size(self) -> Result<u64, Refusal>
        ensures { u64_of result ≡ size_of (phys 52) (start self) (bytes self) }
    {
        item::size_of(Physical, self.item())
    }

    // The frame's number: its start divided by its size.
    #[tactic(auto, using(answer::proofs::Refused::refused_number))]
    pub fn pfn(self) -> Result<u64, Refusal>
        ensures { u64_of result ≡ pfn_of (start self) (bytes self) }
    {
        item::check(Physical, self.item())?;
        Ok(self.size.count(self.start_address.0))
    }

    // The source's `+` with a count of frames; 5 beyond 64 bits, 8 at 2^52 or more.
    pub fn add(self, count: u64) -> Result<PhysFrame, Refusal>
        ensures { frame_of result ≡ plus_item (phys 52) (start self) (bytes self) count }
    {
        item::plus(Physical, self.item(), count).map(PhysFrame::from)
    }

    // The source's `-` with a count of frames; 5 below zero.
    pub fn sub(self, count: u64) -> Result<PhysFrame, Refusal>
        ensures { frame_of result ≡ minus_item (phys 52) (start self) (bytes self) count }
    {
        item::minus(Physical, self.item(), count).map(PhysFrame::from)
    }

    // The source's `-` with a frame: how many frames lie between; 7 if the sizes differ, 5 below zero.
    pub fn sub_frame(self, other: PhysFrame) -> Result<u64, Refusal>
        ensures { u64_of result ≡ distance_item (phys 52) (start self) (bytes self) (start other) (bytes other) }
    {
        item::distance(Physical, self.item(), other.item())
    }
}
