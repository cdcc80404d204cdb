// What the C interface tells in one word. No Into<u64>: the word of a number that is no address, index or
// offset is told by the call that refuses it, so there is no such conversion for users.
ghost use Rattle.std.specs.Prelude.{◌≡◌, ℕ, cond};
ghost use Rattle.table.specs.Level.{level_of};

use addr::VirtAddr;
use frame::PhysFrame;
use page::Page;
use phys::PhysAddr;
use table::{PageTableLevel, UpTo};

pub trait Word: Copy {
    ghost word_of: { Self → ℕ };

    fn word(self) -> u64
        ensures { result ≡ word_of self };
}

impl Word for u64 {
    ghost word_of = { λ n. n };

    fn word(self) -> u64 {
        self
    }
}

// A truth value is told as 1 or 0.
impl Word for bool {
    ghost word_of = { λ b. cond b 1 0 };

    fn word(self) -> u64 {
        self as u64
    }
}

impl Word for VirtAddr {
    ghost word_of = { λ a. a.0 };

    fn word(self) -> u64 {
        self.0
    }
}

impl Word for PhysAddr {
    ghost word_of = { λ a. a.0 };

    fn word(self) -> u64 {
        self.0
    }
}

impl<const LAST: u16> Word for UpTo<LAST> {
    ghost word_of = { λ i. i.0 };

    fn word(self) -> u64 {
        self.0 as u64
    }
}

impl Word for PageTableLevel {
    ghost word_of = { level_of };

    fn word(self) -> u64 {
        self.number() as u64
    }
}

// A page or a frame is told by its start: its size is the one handed in.
impl Word for Page {
    ghost word_of = { λ p. p.start_address.0 };

    fn word(self) -> u64 {
        self.start_address.0
    }
}

impl Word for PhysFrame {
    ghost word_of = { λ f. f.start_address.0 };

    fn word(self) -> u64 {
        self.start_address.0
    }
}
