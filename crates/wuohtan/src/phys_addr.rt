// Physical addresses, as numbers.
ghost use Rattle.std.specs.Prelude.{◌≡◌, [], ◌∷◌, ◌%◌};
ghost use Rattle.answer.specs.Outcome.{gives};
ghost use Rattle.laws.specs.Address.{phys, phys_size, address, is_null, is_aligned, plus, minus, distance, align_down_phys, align_up_phys};
ghost use Rattle.status.specs.Convention.{left, leaves, word, truth};

use convention::give_word;
use phys::PhysAddr;
use status::give;

pub fn wuohtan_phys_addr_new(addr: u64, out: &mut [u64]) -> u8
    ensures { left result out.new ≡ leaves (word (address (phys 52) addr)) out.old }
{
    give_word(PhysAddr::new(addr), out)
}

pub fn wuohtan_phys_addr_try_new(addr: u64, out: &mut [u64]) -> u8
    ensures { left result out.new ≡ leaves (word (address (phys 52) addr)) out.old }
{
    give_word(PhysAddr::try_new(addr), out)
}

pub fn wuohtan_phys_addr_new_truncate(addr: u64, out: &mut [u64]) -> u8
    ensures { left result out.new ≡ leaves (gives (addr % phys_size ∷ [])) out.old }
{
    give([PhysAddr::new_truncate(addr).0], out)
}

pub fn wuohtan_phys_addr_zero(out: &mut [u64]) -> u8
    ensures { left result out.new ≡ leaves (gives (0 ∷ [])) out.old }
{
    give([PhysAddr::zero().0], out)
}

pub fn wuohtan_phys_addr_as_u64(addr: u64, out: &mut [u64]) -> u8
    ensures { left result out.new ≡ leaves (word (address (phys 52) addr)) out.old }
{
    give_word(PhysAddr(addr).as_u64(), out)
}

pub fn wuohtan_phys_addr_is_null(addr: u64, out: &mut [u64]) -> u8
    ensures { left result out.new ≡ leaves (truth (is_null (phys 52) addr)) out.old }
{
    give_word(PhysAddr(addr).is_null(), out)
}

pub fn wuohtan_phys_addr_align_up(addr: u64, align: u64, out: &mut [u64]) -> u8
    ensures { left result out.new ≡ leaves (word (align_up_phys 52 addr align)) out.old }
{
    give_word(PhysAddr(addr).align_up(align), out)
}

pub fn wuohtan_phys_addr_align_down(addr: u64, align: u64, out: &mut [u64]) -> u8
    ensures { left result out.new ≡ leaves (word (align_down_phys 52 addr align)) out.old }
{
    give_word(PhysAddr(addr).align_down(align), out)
}

pub fn wuohtan_phys_addr_is_aligned(addr: u64, align: u64, out: &mut [u64]) -> u8
    ensures { left result out.new ≡ leaves (truth (is_aligned (phys 52) addr align)) out.old }
{
    give_word(PhysAddr(addr).is_aligned(align), out)
}

pub fn wuohtan_phys_addr_add(addr: u64, count: u64, out: &mut [u64]) -> u8
    ensures { left result out.new ≡ leaves (word (plus (phys 52) addr count)) out.old }
{
    give_word(PhysAddr(addr).add(count), out)
}

pub fn wuohtan_phys_addr_sub(addr: u64, count: u64, out: &mut [u64]) -> u8
    ensures { left result out.new ≡ leaves (word (minus (phys 52) addr count)) out.old }
{
    give_word(PhysAddr(addr).sub(count), out)
}

pub fn wuohtan_phys_addr_sub_addr(addr: u64, other: u64, out: &mut [u64]) -> u8
    ensures { left result out.new ≡ leaves (word (distance (phys 52) addr other)) out.old }
{
    give_word(PhysAddr(addr).sub_addr(PhysAddr(other)), out)
}
