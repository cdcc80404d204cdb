// Draws from ranges, on plain numbers: what the ranges of pages and of frames share.
#![tactic(auto)]

mod draw;
mod next;
mod range;

pub use draw::Draw;
pub use range::NumberRange;
