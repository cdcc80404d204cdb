// The lines of the program `runs`, as functions over bytes.
#![tactic(auto)]

mod line;

pub use line::{LINE_BYTES, Line, end_line, more_line, refused_line, run_line, stop_line};
