// Alignment of plain numbers to powers of two; addresses are aligned by it.
#![tactic(auto)]

mod align;

pub use align::{align_down, align_up, is_aligned};
