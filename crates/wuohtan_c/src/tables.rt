// Exports: table indices, offsets and levels, as numbers.
ghost use Rattle.std.specs.Prelude.{◌≡◌, [], ◌∷◌, ◌-◌, ◌%◌};
ghost use Rattle.answer.specs.Outcome.{gives};
ghost use Rattle.laws.specs.Index.{span};
ghost use Rattle.table.specs.Index.{small, index_forward, index_backward, index_steps};
ghost use Rattle.table.specs.Level.{lower, higher};
ghost use Rattle.status.specs.Convention.{left, leaves, word};
ghost use Rattle.convention.specs.Choice.{at_width, at_level, levels_with};

#[unsafe(no_mangle)]
pub extern "C" fn wuohtan_page_table_index_new(index: u64, out: &mut [u64]) -> u8
    ensures { left result out.new ≡ leaves (word (small 512 index)) out.old }
{
    wuohtan::tables::wuohtan_page_table_index_new(index, out)
}

#[unsafe(no_mangle)]
pub extern "C" fn wuohtan_page_table_index_new_truncate(index: u64, out: &mut [u64]) -> u8
    ensures { left result out.new ≡ leaves (gives (index % 512 ∷ [])) out.old }
{
    wuohtan::tables::wuohtan_page_table_index_new_truncate(index, out)
}

#[unsafe(no_mangle)]
pub extern "C" fn wuohtan_page_table_index_into_u64(index: u64, out: &mut [u64]) -> u8
    ensures { left result out.new ≡ leaves (word (small 512 index)) out.old }
{
    wuohtan::tables::wuohtan_page_table_index_into_u64(index, out)
}

#[unsafe(no_mangle)]
pub extern "C" fn wuohtan_page_table_index_forward_checked(
    start: u64,
    count: u64,
    out: &mut [u64],
) -> u8
    ensures { left result out.new ≡ leaves (word (index_forward start count)) out.old }
{
    wuohtan::tables::wuohtan_page_table_index_forward_checked(start, count, out)
}

#[unsafe(no_mangle)]
pub extern "C" fn wuohtan_page_table_index_backward_checked(
    start: u64,
    count: u64,
    out: &mut [u64],
) -> u8
    ensures { left result out.new ≡ leaves (word (index_backward start count)) out.old }
{
    wuohtan::tables::wuohtan_page_table_index_backward_checked(start, count, out)
}

#[unsafe(no_mangle)]
pub extern "C" fn wuohtan_page_table_index_steps_between(
    start: u64,
    end: u64,
    out: &mut [u64],
) -> u8
    ensures { left result out.new ≡ leaves (word (index_steps start end)) out.old }
{
    wuohtan::tables::wuohtan_page_table_index_steps_between(start, end, out)
}

#[unsafe(no_mangle)]
pub extern "C" fn wuohtan_page_offset_new(offset: u64, out: &mut [u64]) -> u8
    ensures { left result out.new ≡ leaves (word (small 4096 offset)) out.old }
{
    wuohtan::tables::wuohtan_page_offset_new(offset, out)
}

#[unsafe(no_mangle)]
pub extern "C" fn wuohtan_page_offset_new_truncate(offset: u64, out: &mut [u64]) -> u8
    ensures { left result out.new ≡ leaves (gives (offset % 4096 ∷ [])) out.old }
{
    wuohtan::tables::wuohtan_page_offset_new_truncate(offset, out)
}

#[unsafe(no_mangle)]
pub extern "C" fn wuohtan_page_offset_into_u64(offset: u64, out: &mut [u64]) -> u8
    ensures { left result out.new ≡ leaves (word (small 4096 offset)) out.old }
{
    wuohtan::tables::wuohtan_page_offset_into_u64(offset, out)
}

#[unsafe(no_mangle)]
pub extern "C" fn wuohtan_page_table_level_next_lower_level(
    width: u64,
    level: u64,
    out: &mut [u64],
) -> u8
    ensures { left result out.new ≡ leaves (at_width width (at_level (levels_with width) level (word (lower level)))) out.old }
{
    wuohtan::tables::wuohtan_page_table_level_next_lower_level(width, level, out)
}

#[unsafe(no_mangle)]
pub extern "C" fn wuohtan_page_table_level_next_higher_level(
    width: u64,
    level: u64,
    out: &mut [u64],
) -> u8
    ensures { left result out.new ≡ leaves (at_width width (at_level (levels_with width) level (word (higher (levels_with width) level)))) out.old }
{
    wuohtan::tables::wuohtan_page_table_level_next_higher_level(width, level, out)
}

#[unsafe(no_mangle)]
pub extern "C" fn wuohtan_page_table_level_table_address_space_alignment(
    width: u64,
    level: u64,
    out: &mut [u64],
) -> u8
    ensures { left result out.new ≡ leaves (at_width width (at_level (levels_with width) level (gives (span level ∷ [])))) out.old }
{
    wuohtan::tables::wuohtan_page_table_level_table_address_space_alignment(width, level, out)
}

#[unsafe(no_mangle)]
pub extern "C" fn wuohtan_page_table_level_entry_address_space_alignment(
    width: u64,
    level: u64,
    out: &mut [u64],
) -> u8
    ensures { left result out.new ≡ leaves (at_width width (at_level (levels_with width) level (gives (span (level - 1) ∷ [])))) out.old }
{
    wuohtan::tables::wuohtan_page_table_level_entry_address_space_alignment(width, level, out)
}
