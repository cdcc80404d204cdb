// Pages and frames by their numbers, at a width.
ghost use Rattle.std.specs.Prelude.{◌≡◌, ◌<◌, ◌^◌};
ghost use Rattle.addr.specs.Widths.{width_of};
ghost use Rattle.frame.specs.Frame.{item_of as frame_of};
ghost use Rattle.page.specs.Page.{item_of as page_of};
ghost use Rattle.paging.specs.Search.{page_item, frame_item};

use addr::{VirtAddr, Width};
use frame::PhysFrame;
use page::Page;
use phys::PhysAddr;
use table::PageSize;

// The 4 KiB page with a number.
pub(crate) fn numbered_page(width: Width, number: u64) -> Page
    requires { number < 2 ^ 45 }
    ensures { page_of result ≡ page_item (width_of width) number }
{
    Page {
        start_address: VirtAddr(width.truncate(number * 0x1000)),
        size: PageSize::Size4KiB,
    }
}

// The 4 KiB frame with a number.
pub(crate) fn numbered_frame(number: u64) -> PhysFrame
    requires { number < 2 ^ 40 }
    ensures { frame_of result ≡ frame_item number }
{
    PhysFrame {
        start_address: PhysAddr(number * 0x1000),
        size: PageSize::Size4KiB,
    }
}
