// Pages, as numbers: a start and a size in bytes.
#![tactic(auto, using(convention::proofs::Choice::bits_with, convention::proofs::Choice::number_with, convention::proofs::Choice::bytes_with), unfolding(status::specs::Convention::leaves))]

ghost use Rattle.std.specs.Prelude.{◌≡◌};
ghost use Rattle.laws.specs.Address.{virt};
ghost use Rattle.laws.specs.Item.{from_start, containing, start_of, size_of, plus_item, minus_item, distance_item};
ghost use Rattle.page.specs.Page.{page_index, page_level_index, own_index, page_of_indices, page_forward, page_backward, page_steps};
ghost use Rattle.status.specs.Convention.{left, leaves, word};
ghost use Rattle.convention.specs.Items.{start_word};
ghost use Rattle.convention.specs.Choice.{at_width, at_level, levels_with, of_size};

use addr::VirtAddr;
use convention::{
    choose_level, choose_page, choose_page_range, choose_size, choose_width, give_step, give_word,
    saturated,
};
use page::Pages;
use status::Status;
use table::UpTo;

pub fn wuohtan_page_from_start_address(width: u64, address: u64, size: u64, out: &mut [u64]) -> u8
    ensures { left result out.new ≡ leaves (at_width width (of_size size (start_word (from_start (virt width) address size)))) out.old }
{
    let Some(w) = choose_width(width) else {
        return Status::NoSuchChoice as u8;
    };
    let Some(s) = choose_size(size) else {
        return Status::NoSuchChoice as u8;
    };
    give_word(
        Pages { width: w }.from_start_address(VirtAddr(address), s),
        out,
    )
}

pub fn wuohtan_page_containing_address(width: u64, address: u64, size: u64, out: &mut [u64]) -> u8
    ensures { left result out.new ≡ leaves (at_width width (of_size size (start_word (containing (virt width) address size)))) out.old }
{
    let Some(w) = choose_width(width) else {
        return Status::NoSuchChoice as u8;
    };
    let Some(s) = choose_size(size) else {
        return Status::NoSuchChoice as u8;
    };
    give_word(
        Pages { width: w }.containing_address(VirtAddr(address), s),
        out,
    )
}

pub fn wuohtan_page_start_address(width: u64, start: u64, size: u64, out: &mut [u64]) -> u8
    ensures { left result out.new ≡ leaves (at_width width (of_size size (word (start_of (virt width) start size)))) out.old }
{
    let Some((pages, page)) = choose_page(width, start, size) else {
        return Status::NoSuchChoice as u8;
    };
    give_word(pages.start_address(page), out)
}

pub fn wuohtan_page_size(width: u64, start: u64, size: u64, out: &mut [u64]) -> u8
    ensures { left result out.new ≡ leaves (at_width width (of_size size (word (size_of (virt width) start size)))) out.old }
{
    let Some((pages, page)) = choose_page(width, start, size) else {
        return Status::NoSuchChoice as u8;
    };
    give_word(pages.size(page), out)
}

pub fn wuohtan_page_p1_index(width: u64, start: u64, size: u64, out: &mut [u64]) -> u8
    ensures { left result out.new ≡ leaves (at_width width (of_size size (word (own_index width start size 1)))) out.old }
{
    let Some((pages, page)) = choose_page(width, start, size) else {
        return Status::NoSuchChoice as u8;
    };
    give_word(pages.p1_index(page), out)
}

pub fn wuohtan_page_p2_index(width: u64, start: u64, size: u64, out: &mut [u64]) -> u8
    ensures { left result out.new ≡ leaves (at_width width (of_size size (word (own_index width start size 2)))) out.old }
{
    let Some((pages, page)) = choose_page(width, start, size) else {
        return Status::NoSuchChoice as u8;
    };
    give_word(pages.p2_index(page), out)
}

pub fn wuohtan_page_p3_index(width: u64, start: u64, size: u64, out: &mut [u64]) -> u8
    ensures { left result out.new ≡ leaves (at_width width (of_size size (word (page_index width start size 3)))) out.old }
{
    let Some((pages, page)) = choose_page(width, start, size) else {
        return Status::NoSuchChoice as u8;
    };
    give_word(pages.p3_index(page), out)
}

pub fn wuohtan_page_p4_index(width: u64, start: u64, size: u64, out: &mut [u64]) -> u8
    ensures { left result out.new ≡ leaves (at_width width (of_size size (word (page_index width start size 4)))) out.old }
{
    let Some((pages, page)) = choose_page(width, start, size) else {
        return Status::NoSuchChoice as u8;
    };
    give_word(pages.p4_index(page), out)
}

pub fn wuohtan_page_page_table_index(
    width: u64,
    start: u64,
    size: u64,
    level: u64,
    out: &mut [u64],
) -> u8
    ensures { left result out.new ≡ leaves (at_width width (of_size size (at_level (levels_with width) level (word (page_level_index width (levels_with width) start size level))))) out.old }
{
    let Some((pages, page)) = choose_page(width, start, size) else {
        return Status::NoSuchChoice as u8;
    };
    let Some((_, l)) = choose_level(width, level) else {
        return Status::NoSuchChoice as u8;
    };
    give_step(pages.page_table_index(page, l), out)
}

#[tactic(auto, using(convention::proofs::Choice::bits_with, convention::proofs::Indices::same_page), unfolding(status::specs::Convention::leaves))]
pub fn wuohtan_page_from_page_table_indices(
    width: u64,
    p5_index: u64,
    p4_index: u64,
    p3_index: u64,
    p2_index: u64,
    p1_index: u64,
    out: &mut [u64],
) -> u8
    ensures { left result out.new ≡ leaves (at_width width (start_word (page_of_indices width (levels_with width) p5_index p4_index p3_index p2_index p1_index 0x1000))) out.old }
{
    let Some(w) = choose_width(width) else {
        return Status::NoSuchChoice as u8;
    };
    let p5 = UpTo(saturated(p5_index));
    let p4 = UpTo(saturated(p4_index));
    let p3 = UpTo(saturated(p3_index));
    let p2 = UpTo(saturated(p2_index));
    let p1 = UpTo(saturated(p1_index));
    give_step(
        Pages { width: w }.from_page_table_indices(p5, p4, p3, p2, p1),
        out,
    )
}

#[tactic(auto, using(convention::proofs::Choice::bits_with, convention::proofs::Indices::same_large_page), unfolding(status::specs::Convention::leaves))]
pub fn wuohtan_page_from_page_table_indices_2mib(
    width: u64,
    p5_index: u64,
    p4_index: u64,
    p3_index: u64,
    p2_index: u64,
    out: &mut [u64],
) -> u8
    ensures { left result out.new ≡ leaves (at_width width (start_word (page_of_indices width (levels_with width) p5_index p4_index p3_index p2_index 0 0x20_0000))) out.old }
{
    let Some(w) = choose_width(width) else {
        return Status::NoSuchChoice as u8;
    };
    let p5 = UpTo(saturated(p5_index));
    let p4 = UpTo(saturated(p4_index));
    let p3 = UpTo(saturated(p3_index));
    let p2 = UpTo(saturated(p2_index));
    give_step(
        Pages { width: w }.from_page_table_indices_2mib(p5, p4, p3, p2),
        out,
    )
}

#[tactic(auto, using(convention::proofs::Choice::bits_with, convention::proofs::Indices::same_largest_page), unfolding(status::specs::Convention::leaves))]
pub fn wuohtan_page_from_page_table_indices_1gib(
    width: u64,
    p5_index: u64,
    p4_index: u64,
    p3_index: u64,
    out: &mut [u64],
) -> u8
    ensures { left result out.new ≡ leaves (at_width width (start_word (page_of_indices width (levels_with width) p5_index p4_index p3_index 0 0 0x4000_0000))) out.old }
{
    let Some(w) = choose_width(width) else {
        return Status::NoSuchChoice as u8;
    };
    let p5 = UpTo(saturated(p5_index));
    let p4 = UpTo(saturated(p4_index));
    let p3 = UpTo(saturated(p3_index));
    give_step(
        Pages { width: w }.from_page_table_indices_1gib(p5, p4, p3),
        out,
    )
}

pub fn wuohtan_page_add(width: u64, start: u64, size: u64, count: u64, out: &mut [u64]) -> u8
    ensures { left result out.new ≡ leaves (at_width width (of_size size (start_word (plus_item (virt width) start size count)))) out.old }
{
    let Some((pages, page)) = choose_page(width, start, size) else {
        return Status::NoSuchChoice as u8;
    };
    give_word(pages.add(page, count), out)
}

pub fn wuohtan_page_sub(width: u64, start: u64, size: u64, count: u64, out: &mut [u64]) -> u8
    ensures { left result out.new ≡ leaves (at_width width (of_size size (start_word (minus_item (virt width) start size count)))) out.old }
{
    let Some((pages, page)) = choose_page(width, start, size) else {
        return Status::NoSuchChoice as u8;
    };
    give_word(pages.sub(page, count), out)
}

pub fn wuohtan_page_sub_page(
    width: u64,
    start: u64,
    size: u64,
    other: u64,
    other_size: u64,
    out: &mut [u64],
) -> u8
    ensures { left result out.new ≡ leaves (at_width width (of_size size (of_size other_size (word (distance_item (virt width) start size other other_size))))) out.old }
{
    let Some((pages, range)) = choose_page_range(width, start, size, other, other_size) else {
        return Status::NoSuchChoice as u8;
    };
    give_word(pages.sub_page(range.start, range.end), out)
}

pub fn wuohtan_page_forward_checked(
    width: u64,
    start: u64,
    size: u64,
    count: u64,
    out: &mut [u64],
) -> u8
    ensures { left result out.new ≡ leaves (at_width width (of_size size (start_word (page_forward width start size count)))) out.old }
{
    let Some((pages, page)) = choose_page(width, start, size) else {
        return Status::NoSuchChoice as u8;
    };
    give_step(pages.forward_checked(page, count), out)
}

pub fn wuohtan_page_backward_checked(
    width: u64,
    start: u64,
    size: u64,
    count: u64,
    out: &mut [u64],
) -> u8
    ensures { left result out.new ≡ leaves (at_width width (of_size size (start_word (page_backward width start size count)))) out.old }
{
    let Some((pages, page)) = choose_page(width, start, size) else {
        return Status::NoSuchChoice as u8;
    };
    give_step(pages.backward_checked(page, count), out)
}

pub fn wuohtan_page_steps_between_u64(
    width: u64,
    start: u64,
    size: u64,
    end: u64,
    end_size: u64,
    out: &mut [u64],
) -> u8
    ensures { left result out.new ≡ leaves (at_width width (of_size size (of_size end_size (word (page_steps width start size end end_size))))) out.old }
{
    let Some((pages, range)) = choose_page_range(width, start, size, end, end_size) else {
        return Status::NoSuchChoice as u8;
    };
    give_step(pages.steps_between_u64(range.start, range.end), out)
}
