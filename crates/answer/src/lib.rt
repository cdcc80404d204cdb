// What a call that has no answer says: the refusals, each with its number.
#![tactic(auto)]

mod refusal;

pub use refusal::Refusal;
