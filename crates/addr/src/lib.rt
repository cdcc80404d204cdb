// Virtual addresses: the port of their part of src/addr.rs.
//
// A virtual and a physical address are types of their own and are never taken for each other. An
// address handed in whose number is no address is refused first, in argument order: `VirtAddr` is
// plain data, and nothing but the call itself tests what it holds.
#![tactic(auto)]

// The methods have the source's names at a type of its own, a line each; what virtual addresses share with
// physical ones is written once, in `address`.
mod virt_addr;
mod width;

pub use virt_addr::VirtAddr;
pub use width::Width;
