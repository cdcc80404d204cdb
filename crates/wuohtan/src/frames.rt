// Frames, as numbers: a start and a size in bytes.
#![tactic(auto, using(convention::proofs::Choice::bytes_with), unfolding(status::specs::Convention::leaves))]

ghost use Rattle.std.specs.Prelude.{◌≡◌};
ghost use Rattle.laws.specs.Address.{phys};
ghost use Rattle.laws.specs.Item.{from_start, containing, start_of, size_of, plus_item, minus_item, distance_item};
ghost use Rattle.frame.specs.Frame.{from_pfn, pfn_of};
ghost use Rattle.status.specs.Convention.{left, leaves, word};
ghost use Rattle.convention.specs.Items.{start_word};
ghost use Rattle.convention.specs.Choice.{of_size};

use convention::{choose, choose_range, choose_size, give_word};
use frame::PhysFrame;
use phys::PhysAddr;
use status::Status;

pub fn wuohtan_phys_frame_from_start_address(address: u64, size: u64, out: &mut [u64]) -> u8
    ensures { left result out.new ≡ leaves (of_size size (start_word (from_start (phys 52) address size))) out.old }
{
    let Some(s) = choose_size(size) else {
        return Status::NoSuchChoice as u8;
    };
    give_word(PhysFrame::from_start_address(PhysAddr(address), s), out)
}

pub fn wuohtan_phys_frame_from_pfn(pfn: u64, size: u64, out: &mut [u64]) -> u8
    ensures { left result out.new ≡ leaves (of_size size (start_word (from_pfn pfn size))) out.old }
{
    let Some(s) = choose_size(size) else {
        return Status::NoSuchChoice as u8;
    };
    give_word(PhysFrame::from_pfn(pfn, s), out)
}

pub fn wuohtan_phys_frame_try_from_pfn(pfn: u64, size: u64, out: &mut [u64]) -> u8
    ensures { left result out.new ≡ leaves (of_size size (start_word (from_pfn pfn size))) out.old }
{
    let Some(s) = choose_size(size) else {
        return Status::NoSuchChoice as u8;
    };
    give_word(PhysFrame::try_from_pfn(pfn, s), out)
}

pub fn wuohtan_phys_frame_containing_address(address: u64, size: u64, out: &mut [u64]) -> u8
    ensures { left result out.new ≡ leaves (of_size size (start_word (containing (phys 52) address size))) out.old }
{
    let Some(s) = choose_size(size) else {
        return Status::NoSuchChoice as u8;
    };
    give_word(PhysFrame::containing_address(PhysAddr(address), s), out)
}

pub fn wuohtan_phys_frame_start_address(start: u64, size: u64, out: &mut [u64]) -> u8
    ensures { left result out.new ≡ leaves (of_size size (word (start_of (phys 52) start size))) out.old }
{
    let Some(frame) = choose::<PhysFrame>(start, size) else {
        return Status::NoSuchChoice as u8;
    };
    give_word(frame.start_address(), out)
}

pub fn wuohtan_phys_frame_size(start: u64, size: u64, out: &mut [u64]) -> u8
    ensures { left result out.new ≡ leaves (of_size size (word (size_of (phys 52) start size))) out.old }
{
    let Some(frame) = choose::<PhysFrame>(start, size) else {
        return Status::NoSuchChoice as u8;
    };
    give_word(frame.size(), out)
}

pub fn wuohtan_phys_frame_pfn(start: u64, size: u64, out: &mut [u64]) -> u8
    ensures { left result out.new ≡ leaves (of_size size (word (pfn_of start size))) out.old }
{
    let Some(frame) = choose::<PhysFrame>(start, size) else {
        return Status::NoSuchChoice as u8;
    };
    give_word(frame.pfn(), out)
}

pub fn wuohtan_phys_frame_add(start: u64, size: u64, count: u64, out: &mut [u64]) -> u8
    ensures { left result out.new ≡ leaves (of_size size (start_word (plus_item (phys 52) start size count))) out.old }
{
    let Some(frame) = choose::<PhysFrame>(start, size) else {
        return Status::NoSuchChoice as u8;
    };
    give_word(frame.add(count), out)
}

pub fn wuohtan_phys_frame_sub(start: u64, size: u64, count: u64, out: &mut [u64]) -> u8
    ensures { left result out.new ≡ leaves (of_size size (start_word (minus_item (phys 52) start size count))) out.old }
{
    let Some(frame) = choose::<PhysFrame>(start, size) else {
        return Status::NoSuchChoice as u8;
    };
    give_word(frame.sub(count), out)
}

pub fn wuohtan_phys_frame_sub_frame(
    start: u64,
    size: u64,
    other: u64,
    other_size: u64,
    out: &mut [u64],
) -> u8
    ensures { left result out.new ≡ leaves (of_size size (of_size other_size (word (distance_item (phys 52) start size other other_size)))) out.old }
{
    let Some(frames) = choose_range::<PhysFrame>(start, size, other, other_size) else {
        return Status::NoSuchChoice as u8;
    };
    let frame = frames.start;
    let other_frame = frames.end;
    give_word(frame.sub_frame(other_frame), out)
}
