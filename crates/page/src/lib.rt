// Virtual pages and their ranges: the port of src/structures/paging/page.rs.
#![tactic(auto)]

mod indices;
mod page;
mod page_range;
mod pages;
mod pages_range;

pub use page::Page;
pub use page_range::{PageRange, PageRangeInclusive, as_4kib_page_range};
pub use pages::Pages;
