// Tables that hold nothing, remembered in lent bytes, so that a list of searches passes them at once.
#![tactic(auto)]

mod empty_tables;

pub use empty_tables::{forget, is_empty, remember_whole};
