// Ranges of pages, without their end and with it, with the source's names, at 48 bits.
ghost use Rattle.std.specs.Prelude.{◌≡◌};
ghost use Rattle.laws.specs.Address.{virt};
ghost use Rattle.laws.specs.Range.{make_range};
ghost use Rattle.page_draw.specs.Draws as draws;
ghost use Rattle.page.specs.Page.{start, start as page_start, bytes};
ghost use Rattle.page.specs.Range.{range_of, range_inclusive_of, as_4kib};
ghost use Rattle.page.specs.Range as pages;

use crate::page::Page;
use crate::pages::Pages;
use addr::{VirtAddr, Width};
use answer::Refusal;
use draw::Draw;
use item::Item;
use range::{Range, RangeInclusive, RangeItem};

pub type PageRange = Range<Page>;

pub type PageRangeInclusive = RangeInclusive<Page>;

impl Page {
    // The range from start to end; 7 if their sizes differ.
    pub fn range(start: Page, end: Page) -> Result<PageRange, Refusal>
        ensures { range_of result ≡ make_range (virt 48) (page_start start) (bytes start) (page_start end) (bytes end) }
    {
        Range::new(start, end)
    }

    // The range from start to end; 7 if their sizes differ.
    pub fn range_inclusive(start: Page, end: Page) -> Result<PageRangeInclusive, Refusal>
        ensures { range_inclusive_of result ≡ make_range (virt 48) (page_start start) (bytes start) (page_start end) (bytes end) }
    {
        RangeInclusive::new(start, end)
    }
}

// The same range of addresses as 4 KiB pages; 7 unless the size is 2 MiB. No method, since the type of ranges
// is of another crate.
pub fn as_4kib_page_range(range: PageRange) -> Result<PageRange, Refusal>
    ensures { range_of result ≡ as_4kib 48 (start range.start) (bytes range.start) (start range.end) (bytes range.end) }
{
    Pages {
        width: Width::Bits48,
    }
    .as_4kib_page_range(range)
}

impl RangeItem for Page {
    type Space = Width;

    ghost addresses = { virt 48 };

    ghost kind = { pages.pages };

    ghost nth_below = { draws.nth_below 48 };

    ghost nth_back_below = { draws.nth_back_below 48 };

    ghost nth_through = { draws.nth_through 48 };

    ghost nth_back_through = { draws.nth_back_through 48 };

    fn space() -> Width {
        Width::Bits48
    }

    fn item(self) -> Item {
        Item {
            start: self.start_address.0,
            size: self.size,
        }
    }

    fn placed(self, start: u64) -> Page {
        Page {
            start_address: VirtAddr(start),
            size: self.size,
        }
    }

    // Each draw is page_draw's of its name at this width; a function that took the draw would have to take its contract
    // too, and be no plainer.
    fn draw_nth_below(start: Item, end: Item, n: u64) -> Result<Draw, Refusal> {
        page_draw::nth_below(Width::Bits48, start, end, n)
    }

    fn draw_nth_back_below(start: Item, end: Item, n: u64) -> Result<Draw, Refusal> {
        page_draw::nth_back_below(Width::Bits48, start, end, n)
    }

    fn draw_nth_through(start: Item, end: Item, n: u64) -> Result<Draw, Refusal> {
        page_draw::nth_through(Width::Bits48, start, end, n)
    }

    fn draw_nth_back_through(start: Item, end: Item, n: u64) -> Result<Draw, Refusal> {
        page_draw::nth_back_through(Width::Bits48, start, end, n)
    }

    fn draw_next_below(start: Item, end: Item) -> Result<Draw, Refusal> {
        page_draw::next_below(Width::Bits48, start, end)
    }

    fn draw_next_back_below(start: Item, end: Item) -> Result<Draw, Refusal> {
        page_draw::next_back_below(Width::Bits48, start, end)
    }

    fn draw_next_through(start: Item, end: Item) -> Result<Draw, Refusal> {
        page_draw::next_through(Width::Bits48, start, end)
    }

    fn draw_next_back_through(start: Item, end: Item) -> Result<Draw, Refusal> {
        page_draw::next_back_through(Width::Bits48, start, end)
    }
}
