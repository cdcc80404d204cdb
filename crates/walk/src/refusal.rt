// The test of an image handed in. The number of lent words and the segments come one by one, for the reason that `table_place` gives.
ghost use Rattle.std.specs.Prelude.{◌≡◌};
ghost use Rattle.answer.specs.Answers.{refusal_of};
ghost use Rattle.laws.specs.Item.{item_refusal};
ghost use Rattle.paging.specs.Memory.{reaching};
ghost use Rattle.walk.specs.Segments.{segments_of};
ghost use Rattle.walk.specs.Root.{RootAt, ImageAt};

use crate::memory::{Segment, table_place};
use address::Addresses;
use answer::Refusal;
use item::{Item, check};
use phys::Physical;
use table::PageSize;

// Refuses an item of 4 KiB handed in: if its start is no address, then by 3.
pub fn check_4kib<S: Addresses>(space: S, start: u64) -> Result<(), Refusal>
    ensures { refusal_of result ≡ item_refusal (S.space space) start 0x1000 }
{
    check(
        space,
        Item {
            start,
            size: PageSize::Size4KiB,
        },
    )
}

// The place of the root in segments, in so many lent words: 2, 3; then 14.
pub fn root_place(lent: u64, segments: &[Segment], root: u64) -> Result<usize, Refusal>
    ensures { RootAt (reaching lent (segments_of segments.now)) root result }
{
    check_4kib(Physical, root)?;
    table_place(lent, segments, root).ok_or(Refusal::RootOutside)
}

// The place of the root of an image: base 2, 3; then the root.
pub fn image_place(lent: u64, segments: &[Segment], base: u64, root: u64) -> Result<usize, Refusal>
    ensures { ImageAt (reaching lent (segments_of segments.now)) base root result }
{
    check_4kib(Physical, base)?;
    root_place(lent, segments, root)
}
