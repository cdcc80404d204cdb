// What a search for mapped runs has found on its way, and the answer that is made of it, by the numbers of pages and frames.
#![tactic(auto)]

mod found;
mod progress;

pub use found::Found;
pub use progress::{Progress, StopReason};
