// Virtual addresses. `Width` has the operations for either width; those of `VirtAddr`, the source's, are at 48 bits.
ghost use Rattle.std.specs.Prelude.{◌≡◌};
ghost use Rattle.answer.specs.Answers.{u64_of, bool_of, steps_of};
ghost use Rattle.laws.specs.Width.{sign_extend};
ghost use Rattle.laws.specs.Address.{virt, address, is_null, is_aligned, plus, minus, plus_signed, distance, align_down_virt, align_up_virt, forward_from, backward_from, steps_between, page_offset, table_index, level_index};
ghost use Rattle.table.specs.Answers.{small_of, small_step_of};
ghost use Rattle.table.specs.Level.{level_of};
ghost use Rattle.addr.specs.Answers.{virt_of, virt_step_of};
ghost use Rattle.addr.specs.Widths.{width_of, levels_of};

use crate::width::Width;
use address::Addresses;
use align::{align_down, align_up};
use answer::Refusal;
use table::{PageOffset, PageTableIndex, PageTableLevel};

#[derive(Clone, Copy, Debug, PartialEq, Eq, PartialOrd, Ord)]
pub struct VirtAddr(pub u64);

impl Width {
    // The address with this number; 1 if it isn't canonical.
    pub fn new(self, addr: u64) -> Result<VirtAddr, Refusal>
        ensures { virt_of result ≡ address (virt (width_of self)) addr }
    {
        self.try_new(addr)
    }

    // The same as `new`, as of `VirtAddr`.
    pub fn try_new(self, addr: u64) -> Result<VirtAddr, Refusal>
        ensures { virt_of result ≡ address (virt (width_of self)) addr }
    {
        self.argument(addr).map(VirtAddr)
    }

    // The address with the number's low bits: the topmost of them is copied upward.
    pub fn new_truncate(self, addr: u64) -> VirtAddr
        ensures { result.0 ≡ sign_extend (width_of self) addr }
    {
        VirtAddr(self.truncate(addr))
    }

    // The address's number; 1 if it is no address.
    pub fn as_u64(self, addr: VirtAddr) -> Result<u64, Refusal>
        ensures { u64_of result ≡ address (virt (width_of self)) addr.0 }
    {
        self.argument(addr.0)
    }

    // Whether the address is 0.
    pub fn is_null(self, addr: VirtAddr) -> Result<bool, Refusal>
        ensures { bool_of result ≡ is_null (virt (width_of self)) addr.0 }
    {
        Addresses::is_null(self, addr.0)
    }

    // The multiple of the alignment at or below the address, sign-extended; 4 if the alignment is no
    // power of two.
    pub fn align_down(self, addr: VirtAddr, align: u64) -> Result<VirtAddr, Refusal>
        ensures { virt_of result ≡ align_down_virt (width_of self) addr.0 align }
    {
        let below = align_down(self.argument(addr.0)?, align)?;
        Ok(VirtAddr(self.truncate(below)))
    }

    // The multiple of the alignment at or above the address, sign-extended; 4 if the alignment is no
    // power of two, 5 if the multiple is 2^64.
    pub fn align_up(self, addr: VirtAddr, align: u64) -> Result<VirtAddr, Refusal>
        ensures { virt_of result ≡ align_up_virt (width_of self) addr.0 align }
    {
        let above = align_up(self.argument(addr.0)?, align)?;
        Ok(VirtAddr(self.truncate(above)))
    }

    // Whether the address is a multiple of the alignment; 4 if that is no power of two.
    pub fn is_aligned(self, addr: VirtAddr, align: u64) -> Result<bool, Refusal>
        ensures { bool_of result ≡ is_aligned (virt (width_of self)) addr.0 align }
    {
        Addresses::is_aligned(self, addr.0, align)
    }

    // The address count bytes on, by the numbers; 5 beyond 64 bits, 6 if it isn't
    // canonical.
    pub fn add(self, addr: VirtAddr, count: u64) -> Result<VirtAddr, Refusal>
        ensures { virt_of result ≡ plus (virt (width_of self)) addr.0 count }
    {
        self.plus(addr.0, count).map(VirtAddr)
    }

    // The address count bytes back, by the numbers; 5 below zero, 6 if it isn't
    // canonical.
    pub fn sub(self, addr: VirtAddr, count: u64) -> Result<VirtAddr, Refusal>
        ensures { virt_of result ≡ minus (virt (width_of self)) addr.0 count }
    {
        self.minus(addr.0, count).map(VirtAddr)
    }

    // The exact sum of address and displacement, for references relative to the instruction pointer; 5 below zero
    // or beyond 64 bits, 6 if it isn't canonical.
    pub fn add_signed(self, addr: VirtAddr, displacement: i32) -> Result<VirtAddr, Refusal>
        ensures { virt_of result ≡ plus_signed (virt (width_of self)) addr.0 displacement }
    {
        self.plus_signed(addr.0, displacement).map(VirtAddr)
    }

    // How far addr is above other, by their numbers, so with the gap; 5 if it is below.
    pub fn sub_addr(self, addr: VirtAddr, other: VirtAddr) -> Result<u64, Refusal>
        ensures { u64_of result ≡ distance (virt (width_of self)) addr.0 other.0 }
    {
        self.distance(addr.0, other.0)
    }

    // The address count steps on, from the low half straight into the high one; none past the last.
    #[tactic(auto, using(std::proofs::lemmas::Bool::Decides::nat_tests), unfolding(laws::specs::Steps::forward))]
    pub fn forward_checked_u64(
        self,
        start: VirtAddr,
        count: u64,
    ) -> Result<Option<VirtAddr>, Refusal>
        ensures { virt_step_of result ≡ forward_from (width_of self) start.0 count }
    {
        let low = self.low(self.argument(start.0)?);
        if self.size() - low <= count {
            return Ok(None);
        }
        Ok(Some(VirtAddr(self.truncate(low + count))))
    }

    // The address count steps back, from the high half straight into the low one; none before 0.
    #[tactic(auto, using(std::proofs::lemmas::Bool::Decides::nat_tests), unfolding(laws::specs::Steps::backward))]
    pub fn backward_checked_u64(
        self,
        start: VirtAddr,
        count: u64,
    ) -> Result<Option<VirtAddr>, Refusal>
        ensures { virt_step_of result ≡ backward_from (width_of self) start.0 count }
    {
        let low = self.low(self.argument(start.0)?);
        let back = low.checked_sub(count);
        Ok(back.map(|low| VirtAddr(self.truncate(low))))
    }

    // How many steps lead from start to end; none if end is lower.
    #[tactic(auto, using(std::proofs::lemmas::Bool::Decides::nat_tests), unfolding(laws::specs::Steps::steps))]
    pub fn steps_between_u64(self, start: VirtAddr, end: VirtAddr) -> Result<Option<u64>, Refusal>
        ensures { steps_of result ≡ steps_between (width_of self) start.0 end.0 }
    {
        let low = self.low(self.argument(start.0)?);
        let high = self.low(self.argument(end.0)?);
        Ok(high.checked_sub(low))
    }

    // The address's offset in its 4 KiB page.
    pub fn page_offset(self, addr: VirtAddr) -> Result<PageOffset, Refusal>
        ensures { small_of result ≡ page_offset (width_of self) addr.0 }
    {
        self.argument(addr.0).map(PageOffset::new_truncate)
    }

    // The address's index into a table of level 1, and so on to level 4. That of level 5, which only 57 bits have, is given by
    // `page_table_index`.
    pub fn p1_index(self, addr: VirtAddr) -> Result<PageTableIndex, Refusal>
        ensures { small_of result ≡ table_index (width_of self) addr.0 1 }
    {
        self.index(addr, PageTableLevel::One)
    }

    pub fn p2_index(self, addr: VirtAddr) -> Result<PageTableIndex, Refusal>
        ensures { small_of result ≡ table_index (width_of self) addr.0 2 }
    {
        self.index(addr, PageTableLevel::Two)
    }

    pub fn p3_index(self, addr: VirtAddr) -> Result<PageTableIndex, Refusal>
        ensures { small_of result ≡ table_index (width_of self) addr.0 3 }
    {
        self.index(addr, PageTableLevel::Three)
    }

    pub fn p4_index(self, addr: VirtAddr) -> Result<PageTableIndex, Refusal>
        ensures { small_of result ≡ table_index (width_of self) addr.0 4 }
    {
        self.index(addr, PageTableLevel::Four)
    }

    // The address's index into a table of any level; none if the width has no such level.
    pub fn page_table_index(
        self,
        addr: VirtAddr,
        level: PageTableLevel,
    ) -> Result<Option<PageTableIndex>, Refusal>
        ensures { small_step_of result ≡ level_index (width_of self) (levels_of self) addr.0 (level_of level) }
    {
        let index = self.index(addr, level)?;
        Ok(self.has_level(level).then_some(index))
    }

    // The nine bits of a level, whether the width has it or not.
    fn index(self, addr: VirtAddr, level: PageTableLevel) -> Result<PageTableIndex, Refusal>
        ensures { small_of result ≡ table_index (width_of self) addr.0 (level_of level) }
    {
        Ok(level.index_of(self.argument(addr.0)?))
    }
}

impl VirtAddr {
    // The address with this number; 1 if it isn't canonical.
    pub fn new(addr: u64) -> Result<VirtAddr, Refusal>
        ensures { virt_of result ≡ address (virt 48) addr }
    {
        Width::Bits48.new(addr)
    }

    // The same as `new`: where the source has a `Result` for one and a panic for the other, both refuse.
    pub fn try_new(addr: u64) -> Result<VirtAddr, Refusal>
        ensures { virt_of result ≡ address (virt 48) addr }
    {
        Width::Bits48.try_new(addr)
    }

    // The address with the number's low 48 bits: bit 47 is copied upward.
    pub fn new_truncate(addr: u64) -> VirtAddr
        ensures { result.0 ≡ sign_extend 48 addr }
    {
        Width::Bits48.new_truncate(addr)
    }

    pub fn zero() -> VirtAddr
        ensures { result.0 ≡ 0 }
    {
        VirtAddr(0)
    }

    pub fn as_u64(self) -> Result<u64, Refusal>
        ensures { u64_of result ≡ address (virt 48) self.0 }
    {
        Width::Bits48.as_u64(self)
    }

    pub fn is_null(self) -> Result<bool, Refusal>
        ensures { bool_of result ≡ is_null (virt 48) self.0 }
    {
        Width::Bits48.is_null(self)
    }

    pub fn align_up(self, align: u64) -> Result<VirtAddr, Refusal>
        ensures { virt_of result ≡ align_up_virt 48 self.0 align }
    {
        Width::Bits48.align_up(self, align)
    }

    pub fn align_down(self, align: u64) -> Result<VirtAddr, Refusal>
        ensures { virt_of result ≡ align_down_virt 48 self.0 align }
    {
        Width::Bits48.align_down(self, align)
    }

    pub fn is_aligned(self, align: u64) -> Result<bool, Refusal>
        ensures { bool_of result ≡ is_aligned (virt 48) self.0 align }
    {
        Width::Bits48.is_aligned(self, align)
    }

    // The source's `+` with a count.
    pub fn add(self, count: u64) -> Result<VirtAddr, Refusal>
        ensures { virt_of result ≡ plus (virt 48) self.0 count }
    {
        Width::Bits48.add(self, count)
    }

    // The source's `-` with a count.
    pub fn sub(self, count: u64) -> Result<VirtAddr, Refusal>
        ensures { virt_of result ≡ minus (virt 48) self.0 count }
    {
        Width::Bits48.sub(self, count)
    }

    // Not in the source, whose counts have no sign; named after std's `checked_add_signed`.
    pub fn add_signed(self, displacement: i32) -> Result<VirtAddr, Refusal>
        ensures { virt_of result ≡ plus_signed (virt 48) self.0 displacement }
    {
        Width::Bits48.add_signed(self, displacement)
    }

    // The source's `-` with an address.
    pub fn sub_addr(self, other: VirtAddr) -> Result<u64, Refusal>
        ensures { u64_of result ≡ distance (virt 48) self.0 other.0 }
    {
        Width::Bits48.sub_addr(self, other)
    }

    pub fn forward_checked_u64(start: VirtAddr, count: u64) -> Result<Option<VirtAddr>, Refusal>
        ensures { virt_step_of result ≡ forward_from 48 start.0 count }
    {
        Width::Bits48.forward_checked_u64(start, count)
    }

    pub fn backward_checked_u64(start: VirtAddr, count: u64) -> Result<Option<VirtAddr>, Refusal>
        ensures { virt_step_of result ≡ backward_from 48 start.0 count }
    {
        Width::Bits48.backward_checked_u64(start, count)
    }

    pub fn steps_between_u64(start: VirtAddr, end: VirtAddr) -> Result<Option<u64>, Refusal>
        ensures { steps_of result ≡ steps_between 48 start.0 end.0 }
    {
        Width::Bits48.steps_between_u64(start, end)
    }

    pub fn page_offset(self) -> Result<PageOffset, Refusal>
        ensures { small_of result ≡ page_offset 48 self.0 }
    {
        Width::Bits48.page_offset(self)
    }

    pub fn p1_index(self) -> Result<PageTableIndex, Refusal>
        ensures { small_of result ≡ table_index 48 self.0 1 }
    {
        Width::Bits48.p1_index(self)
    }

    pub fn p2_index(self) -> Result<PageTableIndex, Refusal>
        ensures { small_of result ≡ table_index 48 self.0 2 }
    {
        Width::Bits48.p2_index(self)
    }

    pub fn p3_index(self) -> Result<PageTableIndex, Refusal>
        ensures { small_of result ≡ table_index 48 self.0 3 }
    {
        Width::Bits48.p3_index(self)
    }

    pub fn p4_index(self) -> Result<PageTableIndex, Refusal>
        ensures { small_of result ≡ table_index 48 self.0 4 }
    {
        Width::Bits48.p4_index(self)
    }

    // None at level 5, which 48 bits do not have.
    pub fn page_table_index(self, level: PageTableLevel) -> Result<Option<PageTableIndex>, Refusal>
        ensures { small_step_of result ≡ level_index 48 4 self.0 (level_of level) }
    {
        Width::Bits48.page_table_index(self, level)
    }
}
