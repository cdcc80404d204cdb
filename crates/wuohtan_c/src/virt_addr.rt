// Exports: virtual addresses, as numbers.
ghost use Rattle.std.specs.Prelude.{◌≡◌, [], ◌∷◌};
ghost use Rattle.answer.specs.Outcome.{gives};
ghost use Rattle.laws.specs.Width.{sign_extend};
ghost use Rattle.laws.specs.Address.{virt, address, is_null, is_aligned, plus, minus, plus_signed, distance, align_down_virt, align_up_virt, forward_from, backward_from, steps_between, page_offset, table_index, level_index};
ghost use Rattle.status.specs.Convention.{left, leaves, word, truth};
ghost use Rattle.convention.specs.Choice.{at_width, at_level, levels_with};

#[unsafe(no_mangle)]
pub extern "C" fn wuohtan_virt_addr_new(width: u64, addr: u64, out: &mut [u64]) -> u8
    ensures { left result out.new ≡ leaves (at_width width (word (address (virt width) addr))) out.old }
{
    wuohtan::virt_addr::wuohtan_virt_addr_new(width, addr, out)
}

#[unsafe(no_mangle)]
pub extern "C" fn wuohtan_virt_addr_try_new(width: u64, addr: u64, out: &mut [u64]) -> u8
    ensures { left result out.new ≡ leaves (at_width width (word (address (virt width) addr))) out.old }
{
    wuohtan::virt_addr::wuohtan_virt_addr_try_new(width, addr, out)
}

#[unsafe(no_mangle)]
pub extern "C" fn wuohtan_virt_addr_new_truncate(width: u64, addr: u64, out: &mut [u64]) -> u8
    ensures { left result out.new ≡ leaves (at_width width (gives (sign_extend width addr ∷ []))) out.old }
{
    wuohtan::virt_addr::wuohtan_virt_addr_new_truncate(width, addr, out)
}

#[unsafe(no_mangle)]
pub extern "C" fn wuohtan_virt_addr_zero(out: &mut [u64]) -> u8
    ensures { left result out.new ≡ leaves (gives (0 ∷ [])) out.old }
{
    wuohtan::virt_addr::wuohtan_virt_addr_zero(out)
}

#[unsafe(no_mangle)]
pub extern "C" fn wuohtan_virt_addr_as_u64(width: u64, addr: u64, out: &mut [u64]) -> u8
    ensures { left result out.new ≡ leaves (at_width width (word (address (virt width) addr))) out.old }
{
    wuohtan::virt_addr::wuohtan_virt_addr_as_u64(width, addr, out)
}

#[unsafe(no_mangle)]
pub extern "C" fn wuohtan_virt_addr_is_null(width: u64, addr: u64, out: &mut [u64]) -> u8
    ensures { left result out.new ≡ leaves (at_width width (truth (is_null (virt width) addr))) out.old }
{
    wuohtan::virt_addr::wuohtan_virt_addr_is_null(width, addr, out)
}

#[unsafe(no_mangle)]
pub extern "C" fn wuohtan_virt_addr_align_up(
    width: u64,
    addr: u64,
    align: u64,
    out: &mut [u64],
) -> u8
    ensures { left result out.new ≡ leaves (at_width width (word (align_up_virt width addr align))) out.old }
{
    wuohtan::virt_addr::wuohtan_virt_addr_align_up(width, addr, align, out)
}

#[unsafe(no_mangle)]
pub extern "C" fn wuohtan_virt_addr_align_down(
    width: u64,
    addr: u64,
    align: u64,
    out: &mut [u64],
) -> u8
    ensures { left result out.new ≡ leaves (at_width width (word (align_down_virt width addr align))) out.old }
{
    wuohtan::virt_addr::wuohtan_virt_addr_align_down(width, addr, align, out)
}

#[unsafe(no_mangle)]
pub extern "C" fn wuohtan_virt_addr_is_aligned(
    width: u64,
    addr: u64,
    align: u64,
    out: &mut [u64],
) -> u8
    ensures { left result out.new ≡ leaves (at_width width (truth (is_aligned (virt width) addr align))) out.old }
{
    wuohtan::virt_addr::wuohtan_virt_addr_is_aligned(width, addr, align, out)
}

#[unsafe(no_mangle)]
pub extern "C" fn wuohtan_virt_addr_add(width: u64, addr: u64, count: u64, out: &mut [u64]) -> u8
    ensures { left result out.new ≡ leaves (at_width width (word (plus (virt width) addr count))) out.old }
{
    wuohtan::virt_addr::wuohtan_virt_addr_add(width, addr, count, out)
}

#[unsafe(no_mangle)]
pub extern "C" fn wuohtan_virt_addr_sub(width: u64, addr: u64, count: u64, out: &mut [u64]) -> u8
    ensures { left result out.new ≡ leaves (at_width width (word (minus (virt width) addr count))) out.old }
{
    wuohtan::virt_addr::wuohtan_virt_addr_sub(width, addr, count, out)
}

#[unsafe(no_mangle)]
pub extern "C" fn wuohtan_virt_addr_add_signed(
    width: u64,
    addr: u64,
    displacement: i32,
    out: &mut [u64],
) -> u8
    ensures { left result out.new ≡ leaves (at_width width (word (plus_signed (virt width) addr displacement))) out.old }
{
    wuohtan::virt_addr::wuohtan_virt_addr_add_signed(width, addr, displacement, out)
}

#[unsafe(no_mangle)]
pub extern "C" fn wuohtan_virt_addr_sub_addr(
    width: u64,
    addr: u64,
    other: u64,
    out: &mut [u64],
) -> u8
    ensures { left result out.new ≡ leaves (at_width width (word (distance (virt width) addr other))) out.old }
{
    wuohtan::virt_addr::wuohtan_virt_addr_sub_addr(width, addr, other, out)
}

#[unsafe(no_mangle)]
pub extern "C" fn wuohtan_virt_addr_forward_checked_u64(
    width: u64,
    start: u64,
    count: u64,
    out: &mut [u64],
) -> u8
    ensures { left result out.new ≡ leaves (at_width width (word (forward_from width start count))) out.old }
{
    wuohtan::virt_addr::wuohtan_virt_addr_forward_checked_u64(width, start, count, out)
}

#[unsafe(no_mangle)]
pub extern "C" fn wuohtan_virt_addr_backward_checked_u64(
    width: u64,
    start: u64,
    count: u64,
    out: &mut [u64],
) -> u8
    ensures { left result out.new ≡ leaves (at_width width (word (backward_from width start count))) out.old }
{
    wuohtan::virt_addr::wuohtan_virt_addr_backward_checked_u64(width, start, count, out)
}

#[unsafe(no_mangle)]
pub extern "C" fn wuohtan_virt_addr_steps_between_u64(
    width: u64,
    start: u64,
    end: u64,
    out: &mut [u64],
) -> u8
    ensures { left result out.new ≡ leaves (at_width width (word (steps_between width start end))) out.old }
{
    wuohtan::virt_addr::wuohtan_virt_addr_steps_between_u64(width, start, end, out)
}

#[unsafe(no_mangle)]
pub extern "C" fn wuohtan_virt_addr_page_offset(width: u64, addr: u64, out: &mut [u64]) -> u8
    ensures { left result out.new ≡ leaves (at_width width (word (page_offset width addr))) out.old }
{
    wuohtan::virt_addr::wuohtan_virt_addr_page_offset(width, addr, out)
}

#[unsafe(no_mangle)]
pub extern "C" fn wuohtan_virt_addr_p1_index(width: u64, addr: u64, out: &mut [u64]) -> u8
    ensures { left result out.new ≡ leaves (at_width width (word (table_index width addr 1))) out.old }
{
    wuohtan::virt_addr::wuohtan_virt_addr_p1_index(width, addr, out)
}

#[unsafe(no_mangle)]
pub extern "C" fn wuohtan_virt_addr_p2_index(width: u64, addr: u64, out: &mut [u64]) -> u8
    ensures { left result out.new ≡ leaves (at_width width (word (table_index width addr 2))) out.old }
{
    wuohtan::virt_addr::wuohtan_virt_addr_p2_index(width, addr, out)
}

#[unsafe(no_mangle)]
pub extern "C" fn wuohtan_virt_addr_p3_index(width: u64, addr: u64, out: &mut [u64]) -> u8
    ensures { left result out.new ≡ leaves (at_width width (word (table_index width addr 3))) out.old }
{
    wuohtan::virt_addr::wuohtan_virt_addr_p3_index(width, addr, out)
}

#[unsafe(no_mangle)]
pub extern "C" fn wuohtan_virt_addr_p4_index(width: u64, addr: u64, out: &mut [u64]) -> u8
    ensures { left result out.new ≡ leaves (at_width width (word (table_index width addr 4))) out.old }
{
    wuohtan::virt_addr::wuohtan_virt_addr_p4_index(width, addr, out)
}

#[unsafe(no_mangle)]
pub extern "C" fn wuohtan_virt_addr_page_table_index(
    width: u64,
    addr: u64,
    level: u64,
    out: &mut [u64],
) -> u8
    ensures { left result out.new ≡ leaves (at_width width (at_level (levels_with width) level (word (level_index width (levels_with width) addr level)))) out.old }
{
    wuohtan::virt_addr::wuohtan_virt_addr_page_table_index(width, addr, level, out)
}
