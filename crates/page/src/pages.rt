// The pages of a width: the source's operations on pages at either. Those of `Page` are these at 48 bits.
ghost use Rattle.std.specs.Prelude.{◌≡◌, ◌<◌, true};
ghost use Rattle.answer.specs.Answers.{u64_of, steps_of};
ghost use Rattle.table.specs.Answers.{small_of, small_step_of};
ghost use Rattle.table.specs.Level.{level_of, bytes_of};
ghost use Rattle.addr.specs.Answers.{virt_of};
ghost use Rattle.addr.specs.Widths.{width_of, levels_of};
ghost use Rattle.laws.specs.Address.{virt};
ghost use Rattle.laws.specs.Item.{from_start, containing, start_of, size_of, plus_item, minus_item, distance_item};
ghost use Rattle.page.specs.Page.{start, bytes, page_of, page_step_of, page_index, page_level_index, own_index, page_of_indices, page_forward, page_backward, page_steps};

use crate::indices::assembled;
use crate::page::Page;
use addr::{VirtAddr, Width};
use answer::Refusal;
use item::{check, check_both};
use range::RangeItem;
use table::{PageSize, PageTableIndex, PageTableLevel};

// A type of its own, since a type's methods stand in its crate and `Width` is that of addresses.
#[derive(Clone, Copy, Debug, PartialEq, Eq)]
pub struct Pages {
    pub width: Width,
}

impl Pages {
    // The page that starts at this address; 3 if it is no multiple of the size.
    pub fn from_start_address(self, address: VirtAddr, size: PageSize) -> Result<Page, Refusal>
        ensures { page_of result ≡ from_start (virt (width_of self.width)) address.0 (bytes_of size) }
    {
        item::from_start(self.width, address.0, size).map(Page::from)
    }

    // The page that this address is in.
    pub fn containing_address(self, address: VirtAddr, size: PageSize) -> Result<Page, Refusal>
        ensures { page_of result ≡ containing (virt (width_of self.width)) address.0 (bytes_of size) }
    {
        item::containing(self.width, address.0, size).map(Page::from)
    }

    pub fn start_address(self, page: Page) -> Result<VirtAddr, Refusal>
        ensures { virt_of result ≡ start_of (virt (width_of self.width)) (start page) (bytes page) }
    {
        item::start_of(self.width, page.item()).map(VirtAddr)
    }

    // The size in bytes.
    pub fn size(self, page: Page) -> Result<u64, Refusal>
        ensures { u64_of result ≡ size_of (virt (width_of self.width)) (start page) (bytes page) }
    {
        item::size_of(self.width, page.item())
    }

    // The index into the level-1 table; 7 unless the size is 4 KiB.
    pub fn p1_index(self, page: Page) -> Result<PageTableIndex, Refusal>
        ensures { small_of result ≡ own_index (width_of self.width) (start page) (bytes page) 1 }
    {
        self.own_index(page, PageTableLevel::One)
    }

    // The index into the level-2 table; 7 if the size is 1 GiB.
    pub fn p2_index(self, page: Page) -> Result<PageTableIndex, Refusal>
        ensures { small_of result ≡ own_index (width_of self.width) (start page) (bytes page) 2 }
    {
        self.own_index(page, PageTableLevel::Two)
    }

    pub fn p3_index(self, page: Page) -> Result<PageTableIndex, Refusal>
        ensures { small_of result ≡ page_index (width_of self.width) (start page) (bytes page) 3 }
    {
        self.index(page, PageTableLevel::Three)
    }

    pub fn p4_index(self, page: Page) -> Result<PageTableIndex, Refusal>
        ensures { small_of result ≡ page_index (width_of self.width) (start page) (bytes page) 4 }
    {
        self.index(page, PageTableLevel::Four)
    }

    // The index into a table of any level; none if the width has no such level.
    pub fn page_table_index(
        self,
        page: Page,
        level: PageTableLevel,
    ) -> Result<Option<PageTableIndex>, Refusal>
        ensures { small_step_of result ≡ page_level_index (width_of self.width) (levels_of self.width) (start page) (bytes page) (level_of level) }
    {
        let index = self.index(page, level)?;
        Ok(self.width.has_level(level).then_some(index))
    }

    // The nine bits of the page's start at a level, also below its own, and whether the width has it or not.
    #[tactic(auto, using(answer::proofs::Refused::refused_number))]
    fn index(self, page: Page, level: PageTableLevel) -> Result<PageTableIndex, Refusal>
        ensures { small_of result ≡ page_index (width_of self.width) (start page) (bytes page) (level_of level) }
    {
        check(self.width, page.item())?;
        Ok(level.index_of(page.start_address.0))
    }

    // The same, only at a level whose entries span the page; 7 below.
    #[tactic(auto, using(answer::proofs::Refused::refused_number))]
    fn own_index(self, page: Page, level: PageTableLevel) -> Result<PageTableIndex, Refusal>
        ensures { small_of result ≡ own_index (width_of self.width) (start page) (bytes page) (level_of level) }
    {
        let index = self.index(page, level)?;
        if level.entry_address_space_alignment() < page.size.bytes() {
            return Err(Refusal::SizesDiffer);
        }
        Ok(index)
    }

    // The source's `+` with a count of pages; 5 beyond 64 bits, 6 if it isn't canonical.
    pub fn add(self, page: Page, count: u64) -> Result<Page, Refusal>
        ensures { page_of result ≡ plus_item (virt (width_of self.width)) (start page) (bytes page) count }
    {
        item::plus(self.width, page.item(), count).map(Page::from)
    }

    // The source's `-` with a count of pages; 5 below zero, 6 if it isn't canonical.
    pub fn sub(self, page: Page, count: u64) -> Result<Page, Refusal>
        ensures { page_of result ≡ minus_item (virt (width_of self.width)) (start page) (bytes page) count }
    {
        item::minus(self.width, page.item(), count).map(Page::from)
    }

    // The source's `-` with a page: how many pages lie between by their numbers, so with the gap; 7 if the
    // sizes differ, 5 below zero.
    pub fn sub_page(self, page: Page, other: Page) -> Result<u64, Refusal>
        ensures { u64_of result ≡ distance_item (virt (width_of self.width)) (start page) (bytes page) (start other) (bytes other) }
    {
        item::distance(self.width, page.item(), other.item())
    }

    // The page count pages on, from the low half straight into the high one; none past the last. `backward_checked`
    // differs in the step on addresses that it calls: one function of both would take that with its contract, and be no
    // plainer.
    #[tactic(auto, using(answer::proofs::Refused::refused_number, crate::proofs::Steps::page_start, crate::proofs::Steps::forward_past))]
    pub fn forward_checked(self, page: Page, count: u64) -> Result<Option<Page>, Refusal>
        ensures { page_step_of result ≡ page_forward (width_of self.width) (start page) (bytes page) count }
    {
        check(self.width, page.item())?;
        let Some(bytes) = page.size.checked_bytes(count) else {
            return Ok(None);
        };
        let address = self.width.forward_checked_u64(page.start_address, bytes)?;
        Ok(address.map(|address| page.placed(address.0)))
    }

    // The page count pages back, from the high half straight into the low one; none before 0.
    #[tactic(auto, using(answer::proofs::Refused::refused_number, crate::proofs::Steps::page_start, crate::proofs::Steps::backward_past))]
    pub fn backward_checked(self, page: Page, count: u64) -> Result<Option<Page>, Refusal>
        ensures { page_step_of result ≡ page_backward (width_of self.width) (start page) (bytes page) count }
    {
        check(self.width, page.item())?;
        let Some(bytes) = page.size.checked_bytes(count) else {
            return Ok(None);
        };
        let address = self.width.backward_checked_u64(page.start_address, bytes)?;
        Ok(address.map(|address| page.placed(address.0)))
    }

    // How many pages lead from page to other; 7 if the sizes differ, none if other is lower.
    #[tactic(auto, using(answer::proofs::Refused::refused_number, crate::proofs::Steps::first_start, crate::proofs::Steps::second_start))]
    pub fn steps_between_u64(self, page: Page, other: Page) -> Result<Option<u64>, Refusal>
        ensures { steps_of result ≡ page_steps (width_of self.width) (start page) (bytes page) (start other) (bytes other) }
    {
        check_both(self.width, page.item(), other.item())?;
        let bytes = self
            .width
            .steps_between_u64(page.start_address, other.start_address)?;
        Ok(bytes.map(|bytes| other.size.count(bytes)))
    }

    // The 4 KiB page with these indices, that of level 5 first. None at 48 bits, which have no level 5, unless that
    // is 0.
    #[tactic(auto, unfolding(crate::specs::Page::page_of_indices))]
    pub fn from_page_table_indices(
        self,
        p5_index: PageTableIndex,
        p4_index: PageTableIndex,
        p3_index: PageTableIndex,
        p2_index: PageTableIndex,
        p1_index: PageTableIndex,
    ) -> Result<Option<Page>, Refusal>
        ensures { page_step_of result ≡ page_of_indices (width_of self.width) (levels_of self.width) p5_index.0 p4_index.0 p3_index.0 p2_index.0 p1_index.0 0x1000 }
    {
        let p5 = p5_index.into_u64()?;
        let p4 = p4_index.into_u64()?;
        let p3 = p3_index.into_u64()?;
        let p2 = p2_index.into_u64()?;
        let p1 = p1_index.into_u64()?;
        Ok(self.assembled(p5, p4, p3, p2, p1, PageSize::Size4KiB))
    }

    // The 2 MiB page with these indices.
    #[tactic(auto, unfolding(crate::specs::Page::page_of_indices))]
    pub fn from_page_table_indices_2mib(
        self,
        p5_index: PageTableIndex,
        p4_index: PageTableIndex,
        p3_index: PageTableIndex,
        p2_index: PageTableIndex,
    ) -> Result<Option<Page>, Refusal>
        ensures { page_step_of result ≡ page_of_indices (width_of self.width) (levels_of self.width) p5_index.0 p4_index.0 p3_index.0 p2_index.0 0 0x20_0000 }
    {
        let p5 = p5_index.into_u64()?;
        let p4 = p4_index.into_u64()?;
        let p3 = p3_index.into_u64()?;
        let p2 = p2_index.into_u64()?;
        Ok(self.assembled(p5, p4, p3, p2, 0, PageSize::Size2MiB))
    }

    // The 1 GiB page with these indices.
    #[tactic(auto, unfolding(crate::specs::Page::page_of_indices))]
    pub fn from_page_table_indices_1gib(
        self,
        p5_index: PageTableIndex,
        p4_index: PageTableIndex,
        p3_index: PageTableIndex,
    ) -> Result<Option<Page>, Refusal>
        ensures { page_step_of result ≡ page_of_indices (width_of self.width) (levels_of self.width) p5_index.0 p4_index.0 p3_index.0 0 0 0x4000_0000 }
    {
        let p5 = p5_index.into_u64()?;
        let p4 = p4_index.into_u64()?;
        let p3 = p3_index.into_u64()?;
        Ok(self.assembled(p5, p4, p3, 0, 0, PageSize::Size1GiB))
    }

    // The page of this size with these indices, if the width has one.
    #[tactic(auto, unfolding(crate::specs::Page::page_of_indices))]
    fn assembled(self, p5: u64, p4: u64, p3: u64, p2: u64, p1: u64, size: PageSize) -> Option<Page>
        requires { (p5 < 512) × (p4 < 512) × (p3 < 512) × (p2 < 512) × (p1 < 512) }
        ensures { page_step_of (Ok result) ≡ page_of_indices (width_of self.width) (levels_of self.width) p5 p4 p3 p2 p1 (bytes_of size) }
    {
        if p5 != 0 && !self.width.has_level(PageTableLevel::Five) {
            return None;
        }
        Some(assembled(self.width, p5, p4, p3, p2, p1, size))
    }
}
