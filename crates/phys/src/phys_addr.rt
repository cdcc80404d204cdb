// Physical addresses: the source's names, a line each over what `address` has for both kinds.
ghost use Rattle.std.specs.Prelude.{◌≡◌, ◌%◌};
ghost use Rattle.answer.specs.Answers.{u64_of, bool_of};
ghost use Rattle.laws.specs.Address.{phys, phys_size, address, is_null, is_aligned, plus, minus, distance, align_down_phys, align_up_phys};
ghost use Rattle.laws.proofs.Item.{phys-argument, phys-position};
ghost use Rattle.phys.specs.Answers.{phys_of};

use address::Addresses;
use align::{align_down, align_up};
use answer::Refusal;

// How many physical addresses there are: 2^52.
pub const PHYS_SIZE: u64 = 0x10_0000_0000_0000;

#[derive(Clone, Copy, Debug, PartialEq, Eq, PartialOrd, Ord)]
pub struct PhysAddr(pub u64);

// The space of physical addresses: the numbers below 2^52.
#[derive(Clone, Copy, Debug, PartialEq, Eq)]
pub struct Physical;

impl Addresses for Physical {
    ghost space = { λ _. phys 52 };

    ghost numbered = { λ _. phys-argument 52 };

    ghost positions_fit = { λ _. phys-position };

    fn holds(self, addr: u64) -> bool {
        addr < PHYS_SIZE
    }

    fn argument_refusal(self) -> Refusal {
        Refusal::NotPhysical
    }

    fn result_refusal(self) -> Refusal {
        Refusal::ResultNotPhysical
    }

    fn position(self, addr: u64) -> u64 {
        addr
    }
}

impl PhysAddr {
    // The address with this number; 2 if it is 2^52 or more.
    pub fn new(addr: u64) -> Result<PhysAddr, Refusal>
        ensures { phys_of result ≡ address (phys 52) addr }
    {
        PhysAddr::try_new(addr)
    }

    // The same as `new`: where the source has a `Result` for one and a panic for the other, both refuse.
    pub fn try_new(addr: u64) -> Result<PhysAddr, Refusal>
        ensures { phys_of result ≡ address (phys 52) addr }
    {
        Physical.argument(addr).map(PhysAddr)
    }

    // The address with the number's low 52 bits.
    pub fn new_truncate(addr: u64) -> PhysAddr
        ensures { result.0 ≡ addr % phys_size }
    {
        PhysAddr(addr % PHYS_SIZE)
    }

    pub fn zero() -> PhysAddr
        ensures { result.0 ≡ 0 }
    {
        PhysAddr(0)
    }

    // The address's number; 2 if it is no address.
    pub fn as_u64(self) -> Result<u64, Refusal>
        ensures { u64_of result ≡ address (phys 52) self.0 }
    {
        Physical.argument(self.0)
    }

    // Whether the address is 0.
    pub fn is_null(self) -> Result<bool, Refusal>
        ensures { bool_of result ≡ is_null (phys 52) self.0 }
    {
        Physical.is_null(self.0)
    }

    // The multiple of the alignment at or above the address; 4 if the alignment is no power of two,
    // 8 if the multiple is 2^52 or more.
    #[tactic(auto, using(std::proofs::lemmas::Bool::Decides::nat_tests, laws::proofs::Align::up_fits))]
    pub fn align_up(self, align: u64) -> Result<PhysAddr, Refusal>
        ensures { phys_of result ≡ align_up_phys 52 self.0 align }
    {
        // Of a number below 2^52 the multiple is at most 2^63: nothing but the alignment is refused.
        let above = align_up(Physical.argument(self.0)?, align)?;
        Physical.outcome(above).map(PhysAddr)
    }

    // The multiple of the alignment at or below the address; 4 if the alignment is no power of two.
    pub fn align_down(self, align: u64) -> Result<PhysAddr, Refusal>
        ensures { phys_of result ≡ align_down_phys 52 self.0 align }
    {
        align_down(Physical.argument(self.0)?, align).map(PhysAddr)
    }

    // Whether the address is a multiple of the alignment; 4 if that is no power of two.
    pub fn is_aligned(self, align: u64) -> Result<bool, Refusal>
        ensures { bool_of result ≡ is_aligned (phys 52) self.0 align }
    {
        Physical.is_aligned(self.0, align)
    }

    // The source's `+` with a count; 5 beyond 64 bits, 8 at 2^52 or more.
    pub fn add(self, count: u64) -> Result<PhysAddr, Refusal>
        ensures { phys_of result ≡ plus (phys 52) self.0 count }
    {
        Physical.plus(self.0, count).map(PhysAddr)
    }

    // The source's `-` with a count; 5 below zero.
    pub fn sub(self, count: u64) -> Result<PhysAddr, Refusal>
        ensures { phys_of result ≡ minus (phys 52) self.0 count }
    {
        Physical.minus(self.0, count).map(PhysAddr)
    }

    // The source's `-` with an address; 5 below zero.
    pub fn sub_addr(self, other: PhysAddr) -> Result<u64, Refusal>
        ensures { u64_of result ≡ distance (phys 52) self.0 other.0 }
    {
        Physical.distance(self.0, other.0)
    }
}
