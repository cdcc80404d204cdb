// The calls on memory images for any paging mode: a width, with its number of levels. `translate` of the crate `translation`,
// `search` and `list` of the crate `image` are these at 48 bits.
#![tactic(auto)]

mod mode;

pub use mode::Paging;
