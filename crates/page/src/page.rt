// A virtual page, with the source's names, at 48 bits: thin over `Pages`, but for pages from their indices, which have no none here. Methods that differ in a name alone stay: the source has each of
// them, and so has the C interface.
ghost use Rattle.std.specs.Prelude.{◌≡◌};
ghost use Rattle.answer.specs.Answers.{u64_of, steps_of};
ghost use Rattle.table.specs.Answers.{small_of, small_step_of};
ghost use Rattle.table.specs.Level.{level_of, bytes_of};
ghost use Rattle.addr.specs.Answers.{virt_of};
ghost use Rattle.laws.specs.Address.{virt};
ghost use Rattle.laws.specs.Item.{from_start, containing, start_of, size_of, plus_item, minus_item, distance_item};
ghost use Rattle.page.specs.Page.{start, start as page_start, bytes, page_at, page_of, page_step_of, page_index, page_level_index, own_index, from_indices, from_indices_2mib, from_indices_1gib, page_forward, page_backward, page_steps};

use crate::indices::assembled;
use crate::pages::Pages;
use addr::{VirtAddr, Width};
use answer::Refusal;
use item::Item;
use table::{PageSize, PageTableIndex, PageTableLevel};

#[derive(Clone, Copy, Debug, PartialEq, Eq)]
pub struct Page {
    pub start_address: VirtAddr,
    pub size: PageSize,
}

const PAGES: Pages = Pages {
    width: Width::Bits48,
};

// The page with an item's start and size.
impl From<Item> for Page {
    ghost from_gives = { λ item page. page ≡ page_at item.size item.start };

    fn from(item: Item) -> Page {
        Page {
            start_address: VirtAddr(item.start),
            size: item.size,
        }
    }
}

impl Page {
    // The page that starts at this address; 3 if it is no multiple of the size.
    pub fn from_start_address(address: VirtAddr, size: PageSize) -> Result<Page, Refusal>
        ensures { page_of result ≡ from_start (virt 48) address.0 (bytes_of size) }
    {
        PAGES.from_start_address(address, size)
    }

    // The page that this address is in.
    pub fn containing_address(address: VirtAddr, size: PageSize) -> Result<Page, Refusal>
        ensures { page_of result ≡ containing (virt 48) address.0 (bytes_of size) }
    {
        PAGES.containing_address(address, size)
    }

    pub fn start_address(self) -> Result<VirtAddr, Refusal>
        ensures { virt_of result ≡ start_of (virt 48) (start self) (bytes self) }
    {
        PAGES.start_address(self)
    }

    // The size in bytes.
    pub fn size(self) -> Result<u64, Refusal>
        ensures { u64_of result ≡ size_of (virt 48) (start self) (bytes self) }
    {
        PAGES.size(self)
    }

    // The index into the level-1 table; 7 unless the size is 4 KiB.
    pub fn p1_index(self) -> Result<PageTableIndex, Refusal>
        ensures { small_of result ≡ own_index 48 (start self) (bytes self) 1 }
    {
        PAGES.p1_index(self)
    }

    // The index into the level-2 table; 7 if the size is 1 GiB.
    pub fn p2_index(self) -> Result<PageTableIndex, Refusal>
        ensures { small_of result ≡ own_index 48 (start self) (bytes self) 2 }
    {
        PAGES.p2_index(self)
    }

    pub fn p3_index(self) -> Result<PageTableIndex, Refusal>
        ensures { small_of result ≡ page_index 48 (start self) (bytes self) 3 }
    {
        PAGES.p3_index(self)
    }

    pub fn p4_index(self) -> Result<PageTableIndex, Refusal>
        ensures { small_of result ≡ page_index 48 (start self) (bytes self) 4 }
    {
        PAGES.p4_index(self)
    }

    // None at level 5, which 48 bits do not have.
    pub fn page_table_index(self, level: PageTableLevel) -> Result<Option<PageTableIndex>, Refusal>
        ensures { small_step_of result ≡ page_level_index 48 4 (start self) (bytes self) (level_of level) }
    {
        PAGES.page_table_index(self, level)
    }

    // The source's `+` with a count of pages; 5 beyond 64 bits, 6 if it isn't canonical.
    pub fn add(self, count: u64) -> Result<Page, Refusal>
        ensures { page_of result ≡ plus_item (virt 48) (start self) (bytes self) count }
    {
        PAGES.add(self, count)
    }

    // The source's `-` with a count of pages; 5 below zero, 6 if it isn't canonical.
    pub fn sub(self, count: u64) -> Result<Page, Refusal>
        ensures { page_of result ≡ minus_item (virt 48) (start self) (bytes self) count }
    {
        PAGES.sub(self, count)
    }

    // The source's `-` with a page: how many pages lie between by their numbers, so with the gap; 7 if the
    // sizes differ, 5 below zero.
    pub fn sub_page(self, other: Page) -> Result<u64, Refusal>
        ensures { u64_of result ≡ distance_item (virt 48) (start self) (bytes self) (start other) (bytes other) }
    {
        PAGES.sub_page(self, other)
    }

    pub fn forward_checked(start: Page, count: u64) -> Result<Option<Page>, Refusal>
        ensures { page_step_of result ≡ page_forward 48 (page_start start) (bytes start) count }
    {
        PAGES.forward_checked(start, count)
    }

    pub fn backward_checked(start: Page, count: u64) -> Result<Option<Page>, Refusal>
        ensures { page_step_of result ≡ page_backward 48 (page_start start) (bytes start) count }
    {
        PAGES.backward_checked(start, count)
    }

    pub fn steps_between_u64(start: Page, end: Page) -> Result<Option<u64>, Refusal>
        ensures { steps_of result ≡ page_steps 48 (page_start start) (bytes start) (page_start end) (bytes end) }
    {
        PAGES.steps_between_u64(start, end)
    }

    // The 4 KiB page with these indices.
    pub fn from_page_table_indices(
        p4_index: PageTableIndex,
        p3_index: PageTableIndex,
        p2_index: PageTableIndex,
        p1_index: PageTableIndex,
    ) -> Result<Page, Refusal>
        ensures { page_of result ≡ from_indices p4_index.0 p3_index.0 p2_index.0 p1_index.0 }
    {
        let p4 = p4_index.into_u64()?;
        let p3 = p3_index.into_u64()?;
        let p2 = p2_index.into_u64()?;
        let p1 = p1_index.into_u64()?;
        Ok(assembled(Width::Bits48, 0, p4, p3, p2, p1, PageSize::Size4KiB))
    }

    // The 2 MiB page with these indices.
    pub fn from_page_table_indices_2mib(
        p4_index: PageTableIndex,
        p3_index: PageTableIndex,
        p2_index: PageTableIndex,
    ) -> Result<Page, Refusal>
        ensures { page_of result ≡ from_indices_2mib p4_index.0 p3_index.0 p2_index.0 }
    {
        let p4 = p4_index.into_u64()?;
        let p3 = p3_index.into_u64()?;
        let p2 = p2_index.into_u64()?;
        Ok(assembled(Width::Bits48, 0, p4, p3, p2, 0, PageSize::Size2MiB))
    }

    // The 1 GiB page with these indices.
    pub fn from_page_table_indices_1gib(
        p4_index: PageTableIndex,
        p3_index: PageTableIndex,
    ) -> Result<Page, Refusal>
        ensures { page_of result ≡ from_indices_1gib p4_index.0 p3_index.0 }
    {
        let p4 = p4_index.into_u64()?;
        let p3 = p3_index.into_u64()?;
        Ok(assembled(Width::Bits48, 0, p4, p3, 0, 0, PageSize::Size1GiB))
    }
}
