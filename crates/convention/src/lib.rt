// The convention of the C interface: numbers go in by value, the answer's words are stored in a lent
// slice, and a status says whether there are any.
#![tactic(auto)]

mod choices;
mod images;
mod items;
mod ranges;
mod store;
mod words;

pub use choices::{
    choose, choose_level, choose_page, choose_page_range, choose_page_range_inclusive,
    choose_range, choose_range_inclusive, choose_size, choose_width, saturated,
};
pub use images::{LISTED_WORDS, give_listed, give_search, give_translation};
pub use items::ItemAt;
pub use ranges::{give_draw, give_range, give_range_inclusive};
pub use store::{give_step, give_word};
pub use words::Word;
