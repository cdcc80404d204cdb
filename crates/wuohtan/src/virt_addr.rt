// Virtual addresses, as numbers.
#![tactic(auto, using(convention::proofs::Choice::bits_with, convention::proofs::Choice::number_with), unfolding(status::specs::Convention::leaves))]

ghost use Rattle.std.specs.Prelude.{◌≡◌, [], ◌∷◌};
ghost use Rattle.answer.specs.Outcome.{gives};
ghost use Rattle.laws.specs.Width.{sign_extend};
ghost use Rattle.laws.specs.Address.{virt, address, is_null, is_aligned, plus, minus, plus_signed, distance, align_down_virt, align_up_virt, forward_from, backward_from, steps_between, page_offset, table_index, level_index};
ghost use Rattle.status.specs.Convention.{left, leaves, word, truth};
ghost use Rattle.convention.specs.Choice.{at_width, at_level, levels_with};

use addr::VirtAddr;
use convention::{choose_level, choose_width, give_step, give_word};
use status::{Status, give};

pub fn wuohtan_virt_addr_new(width: u64, addr: u64, out: &mut [u64]) -> u8
    ensures { left result out.new ≡ leaves (at_width width (word (address (virt width) addr))) out.old }
{
    let Some(w) = choose_width(width) else {
        return Status::NoSuchChoice as u8;
    };
    give_word(w.new(addr), out)
}

pub fn wuohtan_virt_addr_try_new(width: u64, addr: u64, out: &mut [u64]) -> u8
    ensures { left result out.new ≡ leaves (at_width width (word (address (virt width) addr))) out.old }
{
    let Some(w) = choose_width(width) else {
        return Status::NoSuchChoice as u8;
    };
    give_word(w.try_new(addr), out)
}

pub fn wuohtan_virt_addr_new_truncate(width: u64, addr: u64, out: &mut [u64]) -> u8
    ensures { left result out.new ≡ leaves (at_width width (gives (sign_extend width addr ∷ []))) out.old }
{
    let Some(w) = choose_width(width) else {
        return Status::NoSuchChoice as u8;
    };
    give([w.new_truncate(addr).0], out)
}

pub fn wuohtan_virt_addr_zero(out: &mut [u64]) -> u8
    ensures { left result out.new ≡ leaves (gives (0 ∷ [])) out.old }
{
    give([VirtAddr::zero().0], out)
}

pub fn wuohtan_virt_addr_as_u64(width: u64, addr: u64, out: &mut [u64]) -> u8
    ensures { left result out.new ≡ leaves (at_width width (word (address (virt width) addr))) out.old }
{
    let Some(w) = choose_width(width) else {
        return Status::NoSuchChoice as u8;
    };
    give_word(w.as_u64(VirtAddr(addr)), out)
}

pub fn wuohtan_virt_addr_is_null(width: u64, addr: u64, out: &mut [u64]) -> u8
    ensures { left result out.new ≡ leaves (at_width width (truth (is_null (virt width) addr))) out.old }
{
    let Some(w) = choose_width(width) else {
        return Status::NoSuchChoice as u8;
    };
    give_word(w.is_null(VirtAddr(addr)), out)
}

pub fn wuohtan_virt_addr_align_up(width: u64, addr: u64, align: u64, out: &mut [u64]) -> u8
    ensures { left result out.new ≡ leaves (at_width width (word (align_up_virt width addr align))) out.old }
{
    let Some(w) = choose_width(width) else {
        return Status::NoSuchChoice as u8;
    };
    give_word(w.align_up(VirtAddr(addr), align), out)
}

pub fn wuohtan_virt_addr_align_down(width: u64, addr: u64, align: u64, out: &mut [u64]) -> u8
    ensures { left result out.new ≡ leaves (at_width width (word (align_down_virt width addr align))) out.old }
{
    let Some(w) = choose_width(width) else {
        return Status::NoSuchChoice as u8;
    };
    give_word(w.align_down(VirtAddr(addr), align), out)
}

pub fn wuohtan_virt_addr_is_aligned(width: u64, addr: u64, align: u64, out: &mut [u64]) -> u8
    ensures { left result out.new ≡ leaves (at_width width (truth (is_aligned (virt width) addr align))) out.old }
{
    let Some(w) = choose_width(width) else {
        return Status::NoSuchChoice as u8;
    };
    give_word(w.is_aligned(VirtAddr(addr), align), out)
}

pub fn wuohtan_virt_addr_add(width: u64, addr: u64, count: u64, out: &mut [u64]) -> u8
    ensures { left result out.new ≡ leaves (at_width width (word (plus (virt width) addr count))) out.old }
{
    let Some(w) = choose_width(width) else {
        return Status::NoSuchChoice as u8;
    };
    give_word(w.add(VirtAddr(addr), count), out)
}

pub fn wuohtan_virt_addr_sub(width: u64, addr: u64, count: u64, out: &mut [u64]) -> u8
    ensures { left result out.new ≡ leaves (at_width width (word (minus (virt width) addr count))) out.old }
{
    let Some(w) = choose_width(width) else {
        return Status::NoSuchChoice as u8;
    };
    give_word(w.sub(VirtAddr(addr), count), out)
}

pub fn wuohtan_virt_addr_add_signed(width: u64, addr: u64, displacement: i32, out: &mut [u64]) -> u8
    ensures { left result out.new ≡ leaves (at_width width (word (plus_signed (virt width) addr displacement))) out.old }
{
    let Some(w) = choose_width(width) else {
        return Status::NoSuchChoice as u8;
    };
    give_word(w.add_signed(VirtAddr(addr), displacement), out)
}

pub fn wuohtan_virt_addr_sub_addr(width: u64, addr: u64, other: u64, out: &mut [u64]) -> u8
    ensures { left result out.new ≡ leaves (at_width width (word (distance (virt width) addr other))) out.old }
{
    let Some(w) = choose_width(width) else {
        return Status::NoSuchChoice as u8;
    };
    give_word(w.sub_addr(VirtAddr(addr), VirtAddr(other)), out)
}

pub fn wuohtan_virt_addr_forward_checked_u64(
    width: u64,
    start: u64,
    count: u64,
    out: &mut [u64],
) -> u8
    ensures { left result out.new ≡ leaves (at_width width (word (forward_from width start count))) out.old }
{
    let Some(w) = choose_width(width) else {
        return Status::NoSuchChoice as u8;
    };
    give_step(w.forward_checked_u64(VirtAddr(start), count), out)
}

pub fn wuohtan_virt_addr_backward_checked_u64(
    width: u64,
    start: u64,
    count: u64,
    out: &mut [u64],
) -> u8
    ensures { left result out.new ≡ leaves (at_width width (word (backward_from width start count))) out.old }
{
    let Some(w) = choose_width(width) else {
        return Status::NoSuchChoice as u8;
    };
    give_step(w.backward_checked_u64(VirtAddr(start), count), out)
}

pub fn wuohtan_virt_addr_steps_between_u64(width: u64, start: u64, end: u64, out: &mut [u64]) -> u8
    ensures { left result out.new ≡ leaves (at_width width (word (steps_between width start end))) out.old }
{
    let Some(w) = choose_width(width) else {
        return Status::NoSuchChoice as u8;
    };
    give_step(w.steps_between_u64(VirtAddr(start), VirtAddr(end)), out)
}

pub fn wuohtan_virt_addr_page_offset(width: u64, addr: u64, out: &mut [u64]) -> u8
    ensures { left result out.new ≡ leaves (at_width width (word (page_offset width addr))) out.old }
{
    let Some(w) = choose_width(width) else {
        return Status::NoSuchChoice as u8;
    };
    give_word(w.page_offset(VirtAddr(addr)), out)
}

pub fn wuohtan_virt_addr_p1_index(width: u64, addr: u64, out: &mut [u64]) -> u8
    ensures { left result out.new ≡ leaves (at_width width (word (table_index width addr 1))) out.old }
{
    let Some(w) = choose_width(width) else {
        return Status::NoSuchChoice as u8;
    };
    give_word(w.p1_index(VirtAddr(addr)), out)
}

pub fn wuohtan_virt_addr_p2_index(width: u64, addr: u64, out: &mut [u64]) -> u8
    ensures { left result out.new ≡ leaves (at_width width (word (table_index width addr 2))) out.old }
{
    let Some(w) = choose_width(width) else {
        return Status::NoSuchChoice as u8;
    };
    give_word(w.p2_index(VirtAddr(addr)), out)
}

pub fn wuohtan_virt_addr_p3_index(width: u64, addr: u64, out: &mut [u64]) -> u8
    ensures { left result out.new ≡ leaves (at_width width (word (table_index width addr 3))) out.old }
{
    let Some(w) = choose_width(width) else {
        return Status::NoSuchChoice as u8;
    };
    give_word(w.p3_index(VirtAddr(addr)), out)
}

pub fn wuohtan_virt_addr_p4_index(width: u64, addr: u64, out: &mut [u64]) -> u8
    ensures { left result out.new ≡ leaves (at_width width (word (table_index width addr 4))) out.old }
{
    let Some(w) = choose_width(width) else {
        return Status::NoSuchChoice as u8;
    };
    give_word(w.p4_index(VirtAddr(addr)), out)
}

pub fn wuohtan_virt_addr_page_table_index(width: u64, addr: u64, level: u64, out: &mut [u64]) -> u8
    ensures { left result out.new ≡ leaves (at_width width (at_level (levels_with width) level (word (level_index width (levels_with width) addr level)))) out.old }
{
    let Some((w, l)) = choose_level(width, level) else {
        return Status::NoSuchChoice as u8;
    };
    give_step(w.page_table_index(VirtAddr(addr), l), out)
}
