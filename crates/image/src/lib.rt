// The search for mapped runs by the tables in a memory image, and lists of searches. An image is lent words, never written; base is the physical address of its first word.
// Both and the root come one by one, as C lends them: a struct would have to be made for each call.
#![tactic(auto)]

mod find;
mod list_searches;
mod lowest;
mod numbers;
mod pages;
mod root;
mod run_search;
mod span;
mod tables;

pub use found::StopReason;
pub use list_searches::{Listed, list, list_at};
pub use run_search::{ANSWER_WORDS, END, OUTSIDE, RESERVED, RUN, SearchAnswer, search, search_at};
