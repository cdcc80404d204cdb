// Exports: pages, as numbers, a start and a size in bytes.
ghost use Rattle.std.specs.Prelude.{◌≡◌};
ghost use Rattle.laws.specs.Address.{virt};
ghost use Rattle.laws.specs.Item.{from_start, containing, start_of, size_of, plus_item, minus_item, distance_item};
ghost use Rattle.page.specs.Page.{page_index, page_level_index, own_index, page_of_indices, page_forward, page_backward, page_steps};
ghost use Rattle.status.specs.Convention.{left, leaves, word};
ghost use Rattle.convention.specs.Items.{start_word};
ghost use Rattle.convention.specs.Choice.{at_width, at_level, levels_with, of_size};

#[unsafe(no_mangle)]
pub extern "C" fn wuohtan_page_from_start_address(
    width: u64,
    address: u64,
    size: u64,
    out: &mut [u64],
) -> u8
    ensures { left result out.new ≡ leaves (at_width width (of_size size (start_word (from_start (virt width) address size)))) out.old }
{
    wuohtan::pages::wuohtan_page_from_start_address(width, address, size, out)
}

#[unsafe(no_mangle)]
pub extern "C" fn wuohtan_page_containing_address(
    width: u64,
    address: u64,
    size: u64,
    out: &mut [u64],
) -> u8
    ensures { left result out.new ≡ leaves (at_width width (of_size size (start_word (containing (virt width) address size)))) out.old }
{
    wuohtan::pages::wuohtan_page_containing_address(width, address, size, out)
}

#[unsafe(no_mangle)]
pub extern "C" fn wuohtan_page_start_address(
    width: u64,
    start: u64,
    size: u64,
    out: &mut [u64],
) -> u8
    ensures { left result out.new ≡ leaves (at_width width (of_size size (word (start_of (virt width) start size)))) out.old }
{
    wuohtan::pages::wuohtan_page_start_address(width, start, size, out)
}

#[unsafe(no_mangle)]
pub extern "C" fn wuohtan_page_size(width: u64, start: u64, size: u64, out: &mut [u64]) -> u8
    ensures { left result out.new ≡ leaves (at_width width (of_size size (word (size_of (virt width) start size)))) out.old }
{
    wuohtan::pages::wuohtan_page_size(width, start, size, out)
}

#[unsafe(no_mangle)]
pub extern "C" fn wuohtan_page_p1_index(width: u64, start: u64, size: u64, out: &mut [u64]) -> u8
    ensures { left result out.new ≡ leaves (at_width width (of_size size (word (own_index width start size 1)))) out.old }
{
    wuohtan::pages::wuohtan_page_p1_index(width, start, size, out)
}

#[unsafe(no_mangle)]
pub extern "C" fn wuohtan_page_p2_index(width: u64, start: u64, size: u64, out: &mut [u64]) -> u8
    ensures { left result out.new ≡ leaves (at_width width (of_size size (word (own_index width start size 2)))) out.old }
{
    wuohtan::pages::wuohtan_page_p2_index(width, start, size, out)
}

#[unsafe(no_mangle)]
pub extern "C" fn wuohtan_page_p3_index(width: u64, start: u64, size: u64, out: &mut [u64]) -> u8
    ensures { left result out.new ≡ leaves (at_width width (of_size size (word (page_index width start size 3)))) out.old }
{
    wuohtan::pages::wuohtan_page_p3_index(width, start, size, out)
}

#[unsafe(no_mangle)]
pub extern "C" fn wuohtan_page_p4_index(width: u64, start: u64, size: u64, out: &mut [u64]) -> u8
    ensures { left result out.new ≡ leaves (at_width width (of_size size (word (page_index width start size 4)))) out.old }
{
    wuohtan::pages::wuohtan_page_p4_index(width, start, size, out)
}

#[unsafe(no_mangle)]
pub extern "C" fn wuohtan_page_page_table_index(
    width: u64,
    start: u64,
    size: u64,
    level: u64,
    out: &mut [u64],
) -> u8
    ensures { left result out.new ≡ leaves (at_width width (of_size size (at_level (levels_with width) level (word (page_level_index width (levels_with width) start size level))))) out.old }
{
    wuohtan::pages::wuohtan_page_page_table_index(width, start, size, level, out)
}

#[unsafe(no_mangle)]
pub extern "C" fn wuohtan_page_from_page_table_indices(
    width: u64,
    p5_index: u64,
    p4_index: u64,
    p3_index: u64,
    p2_index: u64,
    p1_index: u64,
    out: &mut [u64],
) -> u8
    ensures { left result out.new ≡ leaves (at_width width (start_word (page_of_indices width (levels_with width) p5_index p4_index p3_index p2_index p1_index 0x1000))) out.old }
{
    wuohtan::pages::wuohtan_page_from_page_table_indices(
        width, p5_index, p4_index, p3_index, p2_index, p1_index, out,
    )
}

#[unsafe(no_mangle)]
pub extern "C" fn wuohtan_page_from_page_table_indices_2mib(
    width: u64,
    p5_index: u64,
    p4_index: u64,
    p3_index: u64,
    p2_index: u64,
    out: &mut [u64],
) -> u8
    ensures { left result out.new ≡ leaves (at_width width (start_word (page_of_indices width (levels_with width) p5_index p4_index p3_index p2_index 0 0x20_0000))) out.old }
{
    wuohtan::pages::wuohtan_page_from_page_table_indices_2mib(
        width, p5_index, p4_index, p3_index, p2_index, out,
    )
}

#[unsafe(no_mangle)]
pub extern "C" fn wuohtan_page_from_page_table_indices_1gib(
    width: u64,
    p5_index: u64,
    p4_index: u64,
    p3_index: u64,
    out: &mut [u64],
) -> u8
    ensures { left result out.new ≡ leaves (at_width width (start_word (page_of_indices width (levels_with width) p5_index p4_index p3_index 0 0 0x4000_0000))) out.old }
{
    wuohtan::pages::wuohtan_page_from_page_table_indices_1gib(
        width, p5_index, p4_index, p3_index, out,
    )
}

#[unsafe(no_mangle)]
pub extern "C" fn wuohtan_page_add(
    width: u64,
    start: u64,
    size: u64,
    count: u64,
    out: &mut [u64],
) -> u8
    ensures { left result out.new ≡ leaves (at_width width (of_size size (start_word (plus_item (virt width) start size count)))) out.old }
{
    wuohtan::pages::wuohtan_page_add(width, start, size, count, out)
}

#[unsafe(no_mangle)]
pub extern "C" fn wuohtan_page_sub(
    width: u64,
    start: u64,
    size: u64,
    count: u64,
    out: &mut [u64],
) -> u8
    ensures { left result out.new ≡ leaves (at_width width (of_size size (start_word (minus_item (virt width) start size count)))) out.old }
{
    wuohtan::pages::wuohtan_page_sub(width, start, size, count, out)
}

#[unsafe(no_mangle)]
pub extern "C" fn wuohtan_page_sub_page(
    width: u64,
    start: u64,
    size: u64,
    other: u64,
    other_size: u64,
    out: &mut [u64],
) -> u8
    ensures { left result out.new ≡ leaves (at_width width (of_size size (of_size other_size (word (distance_item (virt width) start size other other_size))))) out.old }
{
    wuohtan::pages::wuohtan_page_sub_page(width, start, size, other, other_size, out)
}

#[unsafe(no_mangle)]
pub extern "C" fn wuohtan_page_forward_checked(
    width: u64,
    start: u64,
    size: u64,
    count: u64,
    out: &mut [u64],
) -> u8
    ensures { left result out.new ≡ leaves (at_width width (of_size size (start_word (page_forward width start size count)))) out.old }
{
    wuohtan::pages::wuohtan_page_forward_checked(width, start, size, count, out)
}

#[unsafe(no_mangle)]
pub extern "C" fn wuohtan_page_backward_checked(
    width: u64,
    start: u64,
    size: u64,
    count: u64,
    out: &mut [u64],
) -> u8
    ensures { left result out.new ≡ leaves (at_width width (of_size size (start_word (page_backward width start size count)))) out.old }
{
    wuohtan::pages::wuohtan_page_backward_checked(width, start, size, count, out)
}

#[unsafe(no_mangle)]
pub extern "C" fn wuohtan_page_steps_between_u64(
    width: u64,
    start: u64,
    size: u64,
    end: u64,
    end_size: u64,
    out: &mut [u64],
) -> u8
    ensures { left result out.new ≡ leaves (at_width width (of_size size (of_size end_size (word (page_steps width start size end end_size))))) out.old }
{
    wuohtan::pages::wuohtan_page_steps_between_u64(width, start, size, end, end_size, out)
}
