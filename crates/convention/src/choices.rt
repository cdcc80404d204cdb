// The closed choices, by their numbers, and the pages, frames and ranges that are read with them.
ghost use Rattle.std.specs.Prelude.{◌≡◌, SomeIff, true};
ghost use Rattle.page.specs.Page.{page_at};
ghost use Rattle.convention.specs.Choice.{is_width, is_level, is_size, width_with, levels_with, level_with, size_with, pages_at, saturate};
ghost use Rattle.convention.specs.Ranges.{range_at, range_inclusive_at, page_range_at, page_range_inclusive_at};

use crate::items::ItemAt;
use addr::Width;
use page::{Page, PageRange, PageRangeInclusive, Pages};
use range::{Range, RangeInclusive};
use table::{PageSize, PageTableLevel};

// The width with so many bits. An Option and no TryFrom: what C is told of a number that is none is a status.
#[tactic(auto, using(std::proofs::lemmas::Bool::Decides::nat_tests), unfolding(crate::specs::Choice::is_width, crate::specs::Choice::width_with))]
pub fn choose_width(width: u64) -> Option<Width>
    ensures { SomeIff result (is_width width ≡ true) (width_with width) }
{
    match width {
        48 => Some(Width::Bits48),
        57 => Some(Width::Bits57),
        _ => None,
    }
}

// The level with this number, where the width has it, and the width. The number is tried before it is a level: tried behind,
// as a level, it made the compiler jump by a table.
#[tactic(auto, using(std::proofs::lemmas::Bool::Decides::nat_tests), unfolding(crate::specs::Choice::is_level, crate::specs::Choice::level_with))]
pub fn choose_level(width: u64, level: u64) -> Option<(Width, PageTableLevel)>
    ensures { SomeIff result ((is_width width ≡ true) × (is_level (levels_with width) level ≡ true)) (width_with width, level_with level) }
{
    let width = choose_width(width)?;
    if (width.highest_level().number() as u64) < level {
        return None;
    }
    let level = match level {
        1 => PageTableLevel::One,
        2 => PageTableLevel::Two,
        3 => PageTableLevel::Three,
        4 => PageTableLevel::Four,
        5 => PageTableLevel::Five,
        _ => return None,
    };
    Some((width, level))
}

// The size with so many bytes.
#[tactic(auto, using(std::proofs::lemmas::Bool::Decides::nat_tests), unfolding(crate::specs::Choice::is_size, crate::specs::Choice::size_with))]
pub fn choose_size(size: u64) -> Option<PageSize>
    ensures { SomeIff result (is_size size ≡ true) (size_with size) }
{
    match size {
        0x1000 => Some(PageSize::Size4KiB),
        0x20_0000 => Some(PageSize::Size2MiB),
        0x4000_0000 => Some(PageSize::Size1GiB),
        _ => None,
    }
}

// The page or frame that starts at a number, of a size in bytes.
pub fn choose<T: ItemAt>(start: u64, size: u64) -> Option<T>
    ensures { SomeIff result (is_size size ≡ true) (T.at (size_with size) start) }
{
    Some(T::at(choose_size(size)?, start))
}

// The range from one to another; the inclusive one is another type, and a trait over both would be no plainer.
pub fn choose_range<T: ItemAt>(
    start: u64,
    start_size: u64,
    end: u64,
    end_size: u64,
) -> Option<Range<T>>
    ensures { SomeIff result ((is_size start_size ≡ true) × (is_size end_size ≡ true)) (range_at T.at start start_size end end_size) }
{
    Some(Range {
        start: choose(start, start_size)?,
        end: choose(end, end_size)?,
    })
}

pub fn choose_range_inclusive<T: ItemAt>(
    start: u64,
    start_size: u64,
    end: u64,
    end_size: u64,
) -> Option<RangeInclusive<T>>
    ensures { SomeIff result ((is_size start_size ≡ true) × (is_size end_size ≡ true)) (range_inclusive_at T.at start start_size end end_size) }
{
    Some(RangeInclusive {
        start: choose(start, start_size)?,
        end: choose(end, end_size)?,
    })
}

// A page, and the pages of the width.
pub fn choose_page(width: u64, start: u64, size: u64) -> Option<(Pages, Page)>
    ensures { SomeIff result ((is_width width ≡ true) × (is_size size ≡ true)) (pages_at (width_with width), page_at (size_with size) start) }
{
    let width = choose_width(width)?;
    Some((Pages { width }, choose(start, size)?))
}

// A range of pages, and the pages of the width.
pub fn choose_page_range(
    width: u64,
    start: u64,
    start_size: u64,
    end: u64,
    end_size: u64,
) -> Option<(Pages, PageRange)>
    ensures { SomeIff result ((is_width width ≡ true) × (is_size start_size ≡ true) × (is_size end_size ≡ true)) (pages_at (width_with width), page_range_at start start_size end end_size) }
{
    let pages = Pages {
        width: choose_width(width)?,
    };
    Some((pages, choose_range(start, start_size, end, end_size)?))
}

pub fn choose_page_range_inclusive(
    width: u64,
    start: u64,
    start_size: u64,
    end: u64,
    end_size: u64,
) -> Option<(Pages, PageRangeInclusive)>
    ensures { SomeIff result ((is_width width ≡ true) × (is_size start_size ≡ true) × (is_size end_size ≡ true)) (pages_at (width_with width), page_range_inclusive_at start start_size end end_size) }
{
    let pages = Pages {
        width: choose_width(width)?,
    };
    Some((
        pages,
        choose_range_inclusive(start, start_size, end, end_size)?,
    ))
}

// The 16-bit number that stands for an index or an offset handed in: one that is none stays none.
pub fn saturated(n: u64) -> u16
    ensures { result ≡ saturate n }
{
    n.min(u16::MAX as u64) as u16
}
