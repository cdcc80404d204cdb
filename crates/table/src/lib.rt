// Table indices, page offsets, levels and page sizes: the port of what src/structures/paging/
// page_table.rs says of numbers, with the page sizes of page.rs.
#![tactic(auto)]

mod index;
mod level;
mod size;
mod up_to;

pub use level::{PageTableLevel, SPANS};
pub use size::PageSize;
pub use up_to::{ENTRY_COUNT, PageOffset, PageTableIndex, UpTo};
