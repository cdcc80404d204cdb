// The input of the program `runs`, as functions over bytes.
#![tactic(auto)]

mod input;

pub use input::{Header, MOST_WORDS, read_header, read_words};
