// Table indices, offsets and levels, as numbers.
#![tactic(auto, using(convention::proofs::Choice::bits_with, convention::proofs::Choice::number_with), unfolding(status::specs::Convention::leaves))]

ghost use Rattle.std.specs.Prelude.{◌≡◌, [], ◌∷◌, ◌-◌, ◌%◌};
ghost use Rattle.answer.specs.Outcome.{gives};
ghost use Rattle.laws.specs.Index.{span};
ghost use Rattle.table.specs.Index.{small, index_forward, index_backward, index_steps};
ghost use Rattle.table.specs.Level.{lower, higher};
ghost use Rattle.status.specs.Convention.{left, leaves, word};
ghost use Rattle.convention.specs.Choice.{at_width, at_level, levels_with};

use convention::{choose_level, give_step, give_word, saturated};
use status::{Status, give};
use table::{PageOffset, PageTableIndex, UpTo};

pub fn wuohtan_page_table_index_new(index: u64, out: &mut [u64]) -> u8
    ensures { left result out.new ≡ leaves (word (small 512 index)) out.old }
{
    give_word(PageTableIndex::new(index), out)
}

pub fn wuohtan_page_table_index_new_truncate(index: u64, out: &mut [u64]) -> u8
    ensures { left result out.new ≡ leaves (gives (index % 512 ∷ [])) out.old }
{
    give([PageTableIndex::new_truncate(index).0 as u64], out)
}

pub fn wuohtan_page_table_index_into_u64(index: u64, out: &mut [u64]) -> u8
    ensures { left result out.new ≡ leaves (word (small 512 index)) out.old }
{
    let i: PageTableIndex = UpTo(saturated(index));
    give_word(i.into_u64(), out)
}

pub fn wuohtan_page_table_index_forward_checked(start: u64, count: u64, out: &mut [u64]) -> u8
    ensures { left result out.new ≡ leaves (word (index_forward start count)) out.old }
{
    let i = UpTo(saturated(start));
    give_step(PageTableIndex::forward_checked(i, count), out)
}

pub fn wuohtan_page_table_index_backward_checked(start: u64, count: u64, out: &mut [u64]) -> u8
    ensures { left result out.new ≡ leaves (word (index_backward start count)) out.old }
{
    let i = UpTo(saturated(start));
    give_step(PageTableIndex::backward_checked(i, count), out)
}

pub fn wuohtan_page_table_index_steps_between(start: u64, end: u64, out: &mut [u64]) -> u8
    ensures { left result out.new ≡ leaves (word (index_steps start end)) out.old }
{
    let i = UpTo(saturated(start));
    let j = UpTo(saturated(end));
    give_step(PageTableIndex::steps_between(i, j), out)
}

pub fn wuohtan_page_offset_new(offset: u64, out: &mut [u64]) -> u8
    ensures { left result out.new ≡ leaves (word (small 4096 offset)) out.old }
{
    give_word(PageOffset::new(offset), out)
}

pub fn wuohtan_page_offset_new_truncate(offset: u64, out: &mut [u64]) -> u8
    ensures { left result out.new ≡ leaves (gives (offset % 4096 ∷ [])) out.old }
{
    give([PageOffset::new_truncate(offset).0 as u64], out)
}

pub fn wuohtan_page_offset_into_u64(offset: u64, out: &mut [u64]) -> u8
    ensures { left result out.new ≡ leaves (word (small 4096 offset)) out.old }
{
    let o: PageOffset = UpTo(saturated(offset));
    give_word(o.into_u64(), out)
}

pub fn wuohtan_page_table_level_next_lower_level(width: u64, level: u64, out: &mut [u64]) -> u8
    ensures { left result out.new ≡ leaves (at_width width (at_level (levels_with width) level (word (lower level)))) out.old }
{
    let Some((_, l)) = choose_level(width, level) else {
        return Status::NoSuchChoice as u8;
    };
    give_step(Ok(l.next_lower_level()), out)
}

pub fn wuohtan_page_table_level_next_higher_level(width: u64, level: u64, out: &mut [u64]) -> u8
    ensures { left result out.new ≡ leaves (at_width width (at_level (levels_with width) level (word (higher (levels_with width) level)))) out.old }
{
    let Some((w, l)) = choose_level(width, level) else {
        return Status::NoSuchChoice as u8;
    };
    give_step(Ok(w.next_higher_level(l)), out)
}

pub fn wuohtan_page_table_level_table_address_space_alignment(
    width: u64,
    level: u64,
    out: &mut [u64],
) -> u8
    ensures { left result out.new ≡ leaves (at_width width (at_level (levels_with width) level (gives (span level ∷ [])))) out.old }
{
    let Some((_, l)) = choose_level(width, level) else {
        return Status::NoSuchChoice as u8;
    };
    give([l.table_address_space_alignment()], out)
}

pub fn wuohtan_page_table_level_entry_address_space_alignment(
    width: u64,
    level: u64,
    out: &mut [u64],
) -> u8
    ensures { left result out.new ≡ leaves (at_width width (at_level (levels_with width) level (gives (span (level - 1) ∷ [])))) out.old }
{
    let Some((_, l)) = choose_level(width, level) else {
        return Status::NoSuchChoice as u8;
    };
    give([l.entry_address_space_alignment()], out)
}
