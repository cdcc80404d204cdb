// Ranges of pages and of frames: one type for those without their end and one for those with it, as std has
// them. One type with a const flag would branch on it in each method and clause, and read no plainer.
#![tactic(auto)]

mod range;
mod range_inclusive;
mod range_item;

pub use range::Range;
pub use range_inclusive::RangeInclusive;
pub use range_item::RangeItem;
