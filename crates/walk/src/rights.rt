// What a mapping allows.
ghost use Rattle.std.specs.Prelude.{◌≡◌, ◌^◌};
ghost use Rattle.std.specs.Int.Bits.{bit_xor};
ghost use Rattle.paging.specs.Packed.{rights_bits, rights_from, rights_over};
ghost use Rattle.walk.specs.Rights.{rights_held};

// Writable and user hold if every level has them, no-execute if some level has it.
#[derive(Clone, Copy, Debug, PartialEq, Eq)]
pub struct Rights {
    pub writable: bool,
    pub user: bool,
    pub no_execute: bool,
}

// The rights above the root: all. A walk has its rights as one word, the bits that all words have: one `&` for an entry, where three truth values would take three and be no
// plainer.
pub const ALL_RIGHTS: u64 = u64::MAX;

// A word with bit 63 turned over, so that each of its rights is a bit that every level must have.
pub fn allows(word: u64) -> u64
    ensures { result ≡ bit_xor word (2 ^ 63) }
{
    word ^ 0x8000_0000_0000_0000
}

impl Rights {
    // The rights of a walk, by the bits that all of its words have.
    pub fn over(all: u64) -> Rights
        ensures { rights_held result ≡ rights_over all }
    {
        Rights {
            writable: (all >> 1) & 1 == 1,
            user: (all >> 2) & 1 == 1,
            no_execute: (all >> 63) & 1 == 0,
        }
    }

    // The rights as bits: 1 writable, 2 user, 4 no-execute.
    pub fn bits(self) -> u64
        ensures { result ≡ rights_bits (rights_held self) }
    {
        self.writable as u64 + 2 * self.user as u64 + 4 * self.no_execute as u64
    }

    // The rights of three such bits.
    pub fn from_bits(bits: u64) -> Rights
        ensures { rights_held result ≡ rights_from bits }
    {
        Rights {
            writable: bits & 1 == 1,
            user: (bits >> 1) & 1 == 1,
            no_execute: (bits >> 2) & 1 == 1,
        }
    }
}
