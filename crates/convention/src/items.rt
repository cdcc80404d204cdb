// Pages and frames as the C interface has them: a start and a size. The clauses of its calls name `page_at`
// and `frame_at`, so the trait is over these, beside `From<Item>`.
ghost use Rattle.std.specs.Prelude.{◌≡◌, ℕ};
ghost use Rattle.table.specs.declared.size.PageSize.{PageSize};
ghost use Rattle.frame.specs.Frame.{frame_at};
ghost use Rattle.page.specs.Page.{page_at};

use addr::VirtAddr;
use frame::PhysFrame;
use page::Page;
use phys::PhysAddr;
use range::RangeItem;
use table::PageSize;

pub trait ItemAt: RangeItem {
    ghost at: { PageSize → ℕ → Self };

    // The item of a size that starts at a number; the calls on it test the number.
    fn at(size: PageSize, start: u64) -> Self
        ensures { result ≡ at size start };
}

impl ItemAt for Page {
    ghost at = { page_at };

    fn at(size: PageSize, start: u64) -> Page {
        Page {
            start_address: VirtAddr(start),
            size,
        }
    }
}

impl ItemAt for PhysFrame {
    ghost at = { frame_at };

    fn at(size: PageSize, start: u64) -> PhysFrame {
        PhysFrame {
            start_address: PhysAddr(start),
            size,
        }
    }
}
