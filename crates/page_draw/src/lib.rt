// Draws of pages on the numbers of a range, at either width, and what refuses them: a start or an end that is no page, sizes that differ, and the gap.
#![tactic(auto)]

mod gap;
mod half;
mod next;
mod nth;

pub use half::top_page;
pub use next::{next_back_below, next_back_through, next_below, next_through};
pub use nth::{nth_back_below, nth_back_through, nth_below, nth_through};
