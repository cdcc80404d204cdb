// Physical frames and their ranges: the port of src/structures/paging/frame.rs.
#![tactic(auto)]

mod frame;
mod frame_range;

pub use frame::PhysFrame;
pub use frame_range::{PhysFrameRange, PhysFrameRangeInclusive};
