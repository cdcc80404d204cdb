// The statuses of the C interface, and an answer's words stored in a lent slice.
#![tactic(auto)]

mod status;
mod words;

pub use status::Status;
pub use words::give;
