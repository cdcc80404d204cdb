// Physical addresses: the port of their part of src/addr.rs.
//
// An address handed in whose number is no address is refused first, in argument order: `PhysAddr` is
// plain data, and nothing but the call itself tests what it holds.
#![tactic(auto)]

mod phys_addr;

pub use phys_addr::{PHYS_SIZE, PhysAddr, Physical};
