// What virtual and physical addresses share: arithmetic on their numbers, and what refuses it.
#![tactic(auto)]

mod addresses;

pub use addresses::Addresses;
