// Ranges of pages at a width: the operations that `PageRange` and `PageRangeInclusive` have at 48 bits. Each has its own
// name here, since the two types are those of another crate.
ghost use Rattle.std.specs.Prelude.{◌≡◌};
ghost use Rattle.answer.specs.Answers.{u64_of, bool_of};
ghost use Rattle.laws.specs.Address.{virt};
ghost use Rattle.laws.specs.Range.{make_range, empty_below, empty_through, count_below, count_through, bytes_below, bytes_through};
ghost use Rattle.addr.specs.Widths.{width_of};
ghost use Rattle.range.specs.Ranges.{answered};
ghost use Rattle.page.specs.Page.{start, start as page_start, bytes};
ghost use Rattle.page.specs.Range.{pages, range_of, range_inclusive_of, as_4kib, nth_of, nth_back_of, nth_inclusive_of, nth_back_inclusive_of};

use crate::page::Page;
use crate::page_range::{PageRange, PageRangeInclusive};
use crate::pages::Pages;
use answer::Refusal;
use item::check_both;
use range::{Range, RangeInclusive, RangeItem};
use table::PageSize;

impl Pages {
    // The range from start to end; 7 if their sizes differ.
    pub fn range(self, start: Page, end: Page) -> Result<PageRange, Refusal>
        ensures { range_of result ≡ make_range (virt (width_of self.width)) (page_start start) (bytes start) (page_start end) (bytes end) }
    {
        check_both(self.width, start.item(), end.item())?;
        Ok(Range { start, end })
    }

    // The range from start to end; 7 if their sizes differ.
    pub fn range_inclusive(self, start: Page, end: Page) -> Result<PageRangeInclusive, Refusal>
        ensures { range_inclusive_of result ≡ make_range (virt (width_of self.width)) (page_start start) (bytes start) (page_start end) (bytes end) }
    {
        check_both(self.width, start.item(), end.item())?;
        Ok(RangeInclusive { start, end })
    }

    // The same range of addresses as 4 KiB pages; 7 unless the size is 2 MiB.
    #[tactic(auto, using(answer::proofs::Refused::refused_number))]
    pub fn as_4kib_page_range(self, range: PageRange) -> Result<PageRange, Refusal>
        ensures { range_of result ≡ as_4kib (width_of self.width) (start range.start) (bytes range.start) (start range.end) (bytes range.end) }
    {
        let Range { start, end } = range;
        check_both(self.width, start.item(), end.item())?;
        if start.size != PageSize::Size2MiB {
            return Err(Refusal::SizesDiffer);
        }
        let size = PageSize::Size4KiB;
        Ok(Range {
            start: Page { size, ..start },
            end: Page { size, ..end },
        })
    }

    // Whether the range has no page.
    pub fn range_is_empty(self, range: PageRange) -> Result<bool, Refusal>
        ensures { bool_of result ≡ empty_below (virt (width_of self.width)) (start range.start) (bytes range.start) (start range.end) (bytes range.end) }
    {
        item::is_empty_below(self.width, range.start.item(), range.end.item())
    }

    // How many pages the range has.
    pub fn range_len(self, range: PageRange) -> Result<u64, Refusal>
        ensures { u64_of result ≡ count_below (virt (width_of self.width)) (start range.start) (bytes range.start) (start range.end) (bytes range.end) }
    {
        item::count_below(self.width, range.start.item(), range.end.item())
    }

    // How many bytes the range has.
    pub fn range_size(self, range: PageRange) -> Result<u64, Refusal>
        ensures { u64_of result ≡ bytes_below (virt (width_of self.width)) (start range.start) (bytes range.start) (start range.end) (bytes range.end) }
    {
        item::bytes_below(self.width, range.start.item(), range.end.item())
    }

    // The first page; leaves the range from just past it.
    pub fn range_next(self, range: &mut PageRange) -> Result<Option<Page>, Refusal>
        ensures { answered pages result range.new ≡ nth_of (width_of self.width) range.old 0 }
    {
        let draw = page_draw::next_below(self.width, range.start.item(), range.end.item())?;
        Ok(range.settle(draw))
    }

    // The page n places from the front; leaves the range from just past it.
    pub fn range_nth(self, range: &mut PageRange, n: u64) -> Result<Option<Page>, Refusal>
        ensures { answered pages result range.new ≡ nth_of (width_of self.width) range.old n }
    {
        let draw = page_draw::nth_below(self.width, range.start.item(), range.end.item(), n)?;
        Ok(range.settle(draw))
    }

    // The last page; leaves the range up to it.
    pub fn range_next_back(self, range: &mut PageRange) -> Result<Option<Page>, Refusal>
        ensures { answered pages result range.new ≡ nth_back_of (width_of self.width) range.old 0 }
    {
        let draw = page_draw::next_back_below(self.width, range.start.item(), range.end.item())?;
        Ok(range.settle(draw))
    }

    // The page n places from the back; leaves the range up to it.
    pub fn range_nth_back(self, range: &mut PageRange, n: u64) -> Result<Option<Page>, Refusal>
        ensures { answered pages result range.new ≡ nth_back_of (width_of self.width) range.old n }
    {
        let draw = page_draw::nth_back_below(self.width, range.start.item(), range.end.item(), n)?;
        Ok(range.settle(draw))
    }

    // Whether the range has no page.
    pub fn range_inclusive_is_empty(self, range: PageRangeInclusive) -> Result<bool, Refusal>
        ensures { bool_of result ≡ empty_through (virt (width_of self.width)) (start range.start) (bytes range.start) (start range.end) (bytes range.end) }
    {
        item::is_empty_through(self.width, range.start.item(), range.end.item())
    }

    // How many pages the range has.
    pub fn range_inclusive_len(self, range: PageRangeInclusive) -> Result<u64, Refusal>
        ensures { u64_of result ≡ count_through (virt (width_of self.width)) (start range.start) (bytes range.start) (start range.end) (bytes range.end) }
    {
        item::count_through(self.width, range.start.item(), range.end.item())
    }

    // How many bytes the range has.
    pub fn range_inclusive_size(self, range: PageRangeInclusive) -> Result<u64, Refusal>
        ensures { u64_of result ≡ bytes_through (virt (width_of self.width)) (start range.start) (bytes range.start) (start range.end) (bytes range.end) }
    {
        item::bytes_through(self.width, range.start.item(), range.end.item())
    }

    // The first page; leaves the range from just past it.
    pub fn range_inclusive_next(
        self,
        range: &mut PageRangeInclusive,
    ) -> Result<Option<Page>, Refusal>
        ensures { answered pages result range.new ≡ nth_inclusive_of (width_of self.width) range.old 0 }
    {
        let draw = page_draw::next_through(self.width, range.start.item(), range.end.item())?;
        Ok(range.settle(draw))
    }

    // The page n places from the front; leaves the range from just past it.
    pub fn range_inclusive_nth(
        self,
        range: &mut PageRangeInclusive,
        n: u64,
    ) -> Result<Option<Page>, Refusal>
        ensures { answered pages result range.new ≡ nth_inclusive_of (width_of self.width) range.old n }
    {
        let draw = page_draw::nth_through(self.width, range.start.item(), range.end.item(), n)?;
        Ok(range.settle(draw))
    }

    // The last page; leaves the range up to it.
    pub fn range_inclusive_next_back(
        self,
        range: &mut PageRangeInclusive,
    ) -> Result<Option<Page>, Refusal>
        ensures { answered pages result range.new ≡ nth_back_inclusive_of (width_of self.width) range.old 0 }
    {
        let draw = page_draw::next_back_through(self.width, range.start.item(), range.end.item())?;
        Ok(range.settle(draw))
    }

    // The page n places from the back; leaves the range up to it.
    pub fn range_inclusive_nth_back(
        self,
        range: &mut PageRangeInclusive,
        n: u64,
    ) -> Result<Option<Page>, Refusal>
        ensures { answered pages result range.new ≡ nth_back_inclusive_of (width_of self.width) range.old n }
    {
        let draw = page_draw::nth_back_through(
            self.width,
            range.start.item(),
            range.end.item(),
            n,
        )?;
        Ok(range.settle(draw))
    }
}
