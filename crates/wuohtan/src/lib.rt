// The calls of the C interface, for the kernel and the bench reader: include/wuohtan.h declares them,
// and the crate wuohtan_c exports them. Each function here is one call of the library, its arguments
// and its answer in the convention's form. C calls each operation by its name, and no macro may write a
// function, so there is one for each.
#![tactic(auto)]

pub mod alignment;
pub mod frame_ranges;
pub mod frames;
pub mod images;
pub mod page_ranges;
pub mod pages;
pub mod phys_addr;
pub mod tables;
pub mod virt_addr;
