// Exports: physical addresses, as numbers.
ghost use Rattle.std.specs.Prelude.{◌≡◌, [], ◌∷◌, ◌%◌};
ghost use Rattle.answer.specs.Outcome.{gives};
ghost use Rattle.laws.specs.Address.{phys, phys_size, address, is_null, is_aligned, plus, minus, distance, align_down_phys, align_up_phys};
ghost use Rattle.status.specs.Convention.{left, leaves, word, truth};

#[unsafe(no_mangle)]
pub extern "C" fn wuohtan_phys_addr_new(addr: u64, out: &mut [u64]) -> u8
    ensures { left result out.new ≡ leaves (word (address (phys 52) addr)) out.old }
{
    wuohtan::phys_addr::wuohtan_phys_addr_new(addr, out)
}

#[unsafe(no_mangle)]
pub extern "C" fn wuohtan_phys_addr_try_new(addr: u64, out: &mut [u64]) -> u8
    ensures { left result out.new ≡ leaves (word (address (phys 52) addr)) out.old }
{
    wuohtan::phys_addr::wuohtan_phys_addr_try_new(addr, out)
}

#[unsafe(no_mangle)]
pub extern "C" fn wuohtan_phys_addr_new_truncate(addr: u64, out: &mut [u64]) -> u8
    ensures { left result out.new ≡ leaves (gives (addr % phys_size ∷ [])) out.old }
{
    wuohtan::phys_addr::wuohtan_phys_addr_new_truncate(addr, out)
}

#[unsafe(no_mangle)]
pub extern "C" fn wuohtan_phys_addr_zero(out: &mut [u64]) -> u8
    ensures { left result out.new ≡ leaves (gives (0 ∷ [])) out.old }
{
    wuohtan::phys_addr::wuohtan_phys_addr_zero(out)
}

#[unsafe(no_mangle)]
pub extern "C" fn wuohtan_phys_addr_as_u64(addr: u64, out: &mut [u64]) -> u8
    ensures { left result out.new ≡ leaves (word (address (phys 52) addr)) out.old }
{
    wuohtan::phys_addr::wuohtan_phys_addr_as_u64(addr, out)
}

#[unsafe(no_mangle)]
pub extern "C" fn wuohtan_phys_addr_is_null(addr: u64, out: &mut [u64]) -> u8
    ensures { left result out.new ≡ leaves (truth (is_null (phys 52) addr)) out.old }
{
    wuohtan::phys_addr::wuohtan_phys_addr_is_null(addr, out)
}

#[unsafe(no_mangle)]
pub extern "C" fn wuohtan_phys_addr_align_up(addr: u64, align: u64, out: &mut [u64]) -> u8
    ensures { left result out.new ≡ leaves (word (align_up_phys 52 addr align)) out.old }
{
    wuohtan::phys_addr::wuohtan_phys_addr_align_up(addr, align, out)
}

#[unsafe(no_mangle)]
pub extern "C" fn wuohtan_phys_addr_align_down(addr: u64, align: u64, out: &mut [u64]) -> u8
    ensures { left result out.new ≡ leaves (word (align_down_phys 52 addr align)) out.old }
{
    wuohtan::phys_addr::wuohtan_phys_addr_align_down(addr, align, out)
}

#[unsafe(no_mangle)]
pub extern "C" fn wuohtan_phys_addr_is_aligned(addr: u64, align: u64, out: &mut [u64]) -> u8
    ensures { left result out.new ≡ leaves (truth (is_aligned (phys 52) addr align)) out.old }
{
    wuohtan::phys_addr::wuohtan_phys_addr_is_aligned(addr, align, out)
}

#[unsafe(no_mangle)]
pub extern "C" fn wuohtan_phys_addr_add(addr: u64, count: u64, out: &mut [u64]) -> u8
    ensures { left result out.new ≡ leaves (word (plus (phys 52) addr count)) out.old }
{
    wuohtan::phys_addr::wuohtan_phys_addr_add(addr, count, out)
}

#[unsafe(no_mangle)]
pub extern "C" fn wuohtan_phys_addr_sub(addr: u64, count: u64, out: &mut [u64]) -> u8
    ensures { left result out.new ≡ leaves (word (minus (phys 52) addr count)) out.old }
{
    wuohtan::phys_addr::wuohtan_phys_addr_sub(addr, count, out)
}

#[unsafe(no_mangle)]
pub extern "C" fn wuohtan_phys_addr_sub_addr(addr: u64, other: u64, out: &mut [u64]) -> u8
    ensures { left result out.new ≡ leaves (word (distance (phys 52) addr other)) out.old }
{
    wuohtan::phys_addr::wuohtan_phys_addr_sub_addr(addr, other, out)
}
