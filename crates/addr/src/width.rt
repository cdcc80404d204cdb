// The width of virtual addresses, and what depends on it.
ghost use Rattle.std.specs.Prelude.{◌≡◌, ◌^◌, ◌<◌, leb};
ghost use Rattle.std.proofs.Common.{arith};
ghost use Rattle.laws.specs.Address.{virt};
ghost use Rattle.laws.specs.Width.{low, half, first_high, sign_extend, canonical};
ghost use Rattle.laws.proofs.Item.{virt-argument, virt-position};
ghost use Rattle.table.specs.Answers.{level_answer_of};
ghost use Rattle.table.specs.Level.{level_of, higher};
ghost use Rattle.addr.specs.Widths.{width_of, levels_of};
ghost use Rattle.addr.specs.declared.width.Width.TheVariants.{Bits48, Bits57};

use address::Addresses;
use answer::Refusal;
use table::PageTableLevel;

// 48 bits with four levels of tables, 57 with five. The names of the source are at 48 bits.
#[derive(Clone, Copy, Debug, PartialEq, Eq)]
pub enum Width {
    Bits48 = 48,
    Bits57 = 57,
}

// The virtual addresses of the width: the canonical numbers.
impl Addresses for Width {
    ghost space = { λ w. virt (width_of w) };

    ghost numbered = { λ w. virt-argument (width_of w) };

    ghost positions_fit = { λ w. virt-position (width_of w) (elim w as (λ x. width_of x < 64) [ Bits48 ↦ omega arith | Bits57 ↦ omega arith ]) };

    fn holds(self, addr: u64) -> bool {
        self.is_canonical(addr)
    }

    fn argument_refusal(self) -> Refusal {
        Refusal::NotCanonical
    }

    fn result_refusal(self) -> Refusal {
        Refusal::ResultNotCanonical
    }

    fn position(self, addr: u64) -> u64 {
        self.low(addr)
    }
}

impl Width {
    // The level of the tables that a walk begins with.
    pub fn highest_level(self) -> PageTableLevel
        ensures { level_of result ≡ levels_of self }
    {
        match self {
            Width::Bits48 => PageTableLevel::Four,
            Width::Bits57 => PageTableLevel::Five,
        }
    }

    // Whether the width has tables of this level.
    pub fn has_level(self, level: PageTableLevel) -> bool
        ensures { result ≡ leb (level_of level) (levels_of self) }
    {
        level.number() <= self.highest_level().number()
    }

    // The level above; none above the highest.
    pub fn next_higher_level(self, level: PageTableLevel) -> Option<PageTableLevel>
        ensures { level_answer_of result ≡ higher (levels_of self) (level_of level) }
    {
        level.next_higher_level_up_to(self.highest_level())
    }

    // How many addresses the width has.
    pub fn size(self) -> u64
        ensures { result ≡ 2 ^ width_of self }
    {
        1 << self as u32
    }

    // How many addresses each half has: the first number above the low half.
    pub fn half(self) -> u64
        ensures { result ≡ half (width_of self) }
    {
        self.size() / 2
    }

    // The first address of the high half.
    pub fn first_high(self) -> u64
        ensures { result ≡ first_high (width_of self) }
    {
        u64::MAX - (self.half() - 1)
    }

    // The number's part below the width.
    pub fn low(self, addr: u64) -> u64
        ensures { result ≡ low (width_of self) addr }
    {
        addr & (self.size() - 1)
    }

    // The number with bit w − 1 copied upward: the number modulo 2^w if the bit is clear, that plus
    // 2^64 − 2^w if it is set.
    #[tactic(auto, using(crate::proofs::Widths::widths, laws::proofs::Width::sizes, laws::proofs::Width::masked_clear, laws::proofs::Width::masked_set))]
    pub fn truncate(self, addr: u64) -> u64
        ensures { result ≡ sign_extend (width_of self) addr }
    {
        let size = self.size();
        let low = addr % size;
        let copied_bit = addr & (size / 2);
        if copied_bit == 0 {
            low
        } else {
            // 2^64 is no u64: u64::MAX is one less
            low + (u64::MAX - (size - 1))
        }
    }

    // Whether the number is in one of the halves, and not in the gap between them.
    #[tactic(auto, using(crate::proofs::Widths::low_canonical, crate::proofs::Widths::high_canonical))]
    pub fn is_canonical(self, addr: u64) -> bool
        ensures { result ≡ canonical (width_of self) addr }
    {
        addr < self.half() || self.first_high() <= addr
    }
}
