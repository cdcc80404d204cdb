// What C and Rust link as libwuohtan.a, a function for each operation since C calls it by its name: include/wuohtan.h declares each function. Each is one call of
// the crate wuohtan's function of its name, and states that function's contract.
#![tactic(auto)]

mod alignment;
mod frame_ranges;
mod frames;
mod images;
mod page_ranges;
mod pages;
mod phys_addr;
mod tables;
mod virt_addr;
