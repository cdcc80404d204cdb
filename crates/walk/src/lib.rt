// What every walk over the tables in lent words needs: entries, places of tables, and what refuses a root.
#![tactic(auto)]

mod entry;
mod look;
mod memory;
mod numbers;
mod refusal;
mod rights;
mod span;

pub use entry::{NO_MASK, frame_in, is_present};
pub use look::{Look, look_word};
pub use memory::{Segment, TABLE_WORDS, Tables, table_place};
pub use numbers::{levels, page_count, page_number};
pub use refusal::{check_4kib, image_place, root_place};
pub use rights::{ALL_RIGHTS, Rights, allows};
pub use span::within_span;
