// The levels of tables, and what their entries and tables span.
ghost use Rattle.std.specs.Prelude.{◌≡◌, ◌-◌, ◌<◌};
ghost use Rattle.laws.specs.Index.{span, index};
ghost use Rattle.table.specs.Answers.{level_answer_of};
ghost use Rattle.table.specs.Level.{level_of, lower, higher};

use crate::up_to::{PageTableIndex, UpTo};

// What one entry spans at levels 1 to 5, and last the whole level-5 table.
pub const SPANS: [u64; 6] = [
    0x1000,
    0x20_0000,
    0x4000_0000,
    0x80_0000_0000,
    0x1_0000_0000_0000,
    0x200_0000_0000_0000,
];

// What a table of this level spans; at 0, what a page does.
pub(crate) fn span_of(level: usize) -> u64
    requires { level < 6 }
    ensures { result ≡ span level }
{
    SPANS[level]
}

// From the tables that map 4 KiB pages up to those that a walk begins with: of level 4 at 48 bits, of level 5 at 57.
#[derive(Clone, Copy, Debug, PartialEq, Eq, PartialOrd, Ord)]
pub enum PageTableLevel {
    One = 1,
    Two = 2,
    Three = 3,
    Four = 4,
    Five = 5,
}

impl PageTableLevel {
    // The level as a number, 1 to 5.
    pub fn number(self) -> usize
        ensures { result ≡ level_of self }
    {
        self as usize
    }

    // The level below; none below 1.
    pub fn next_lower_level(self) -> Option<PageTableLevel>
        ensures { level_answer_of result ≡ lower (level_of self) }
    {
        match self {
            PageTableLevel::Five => Some(PageTableLevel::Four),
            PageTableLevel::Four => Some(PageTableLevel::Three),
            PageTableLevel::Three => Some(PageTableLevel::Two),
            PageTableLevel::Two => Some(PageTableLevel::One),
            PageTableLevel::One => None,
        }
    }

    // The level above; none above 4, since the source's tables have four levels.
    pub fn next_higher_level(self) -> Option<PageTableLevel>
        ensures { level_answer_of result ≡ higher 4 (level_of self) }
    {
        self.next_higher_level_up_to(PageTableLevel::Four)
    }

    // The level above, of levels up to a highest one; none above that.
    pub fn next_higher_level_up_to(self, highest: PageTableLevel) -> Option<PageTableLevel>
        ensures { level_answer_of result ≡ higher (level_of highest) (level_of self) }
    {
        if highest.number() <= self.number() {
            return None;
        }
        match self {
            PageTableLevel::Five => None,
            PageTableLevel::Four => Some(PageTableLevel::Five),
            PageTableLevel::Three => Some(PageTableLevel::Four),
            PageTableLevel::Two => Some(PageTableLevel::Three),
            PageTableLevel::One => Some(PageTableLevel::Two),
        }
    }

    // What a table of this level spans.
    pub fn table_address_space_alignment(self) -> u64
        ensures { result ≡ span (level_of self) }
    {
        span_of(self.number())
    }

    // The index that an address has into a table of this level: nine bits from the first one above
    // what an entry spans.
    #[tactic(auto, using(crate::proofs::Indices::indices))]
    pub fn index_of(self, addr: u64) -> PageTableIndex
        ensures { result.0 ≡ index (level_of self) addr }
    {
        let level = self.number();
        let within = addr & (span_of(level) - 1);
        UpTo((within >> (12 + 9 * (level - 1))) as u16)
    }

    // What an entry of a table of this level spans.
    pub fn entry_address_space_alignment(self) -> u64
        ensures { result ≡ span (level_of self - 1) }
    {
        span_of(self.number() - 1)
    }
}
