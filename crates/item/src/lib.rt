// What pages and frames share, on plain numbers: an item is where it starts and its size. A range comes as its
// first item and its end, as the source's constructors take them. `below` and `through`, `plus` and `minus`
// differ in what they call and in no type: one function of both would take that, and read no plainer.
#![tactic(auto)]

mod item;
mod range;

pub use item::{
    Item, check, check_both, containing, distance, from_start, minus, plus, size_of, start_of,
};
pub use range::{
    bytes_below, bytes_through, count_below, count_through, is_empty_below, is_empty_through,
    numbers,
};
