// Ranges of frames, as numbers: start and end, each with its size in bytes.
#![tactic(auto, using(convention::proofs::Choice::bytes_with), unfolding(status::specs::Convention::leaves))]

ghost use Rattle.std.specs.Prelude.{◌≡◌};
ghost use Rattle.laws.specs.Address.{phys};
ghost use Rattle.laws.specs.Range.{make_range, empty_below, empty_through, count_below, count_through, bytes_below, bytes_through};
ghost use Rattle.frame.specs.Range.{nth_of, nth_back_of, nth_inclusive_of, nth_back_inclusive_of};
ghost use Rattle.status.specs.Convention.{left, leaves, word, truth};
ghost use Rattle.convention.specs.Choice.{of_size};
ghost use Rattle.convention.specs.Ranges.{pair, frame_draw_words, frame_draw_inclusive_words, frame_range_at, frame_range_inclusive_at};

use convention::{
    choose_range, choose_range_inclusive, give_draw, give_range, give_range_inclusive, give_word,
};
use frame::PhysFrame;
use status::Status;

pub fn wuohtan_phys_frame_range_new(
    start: u64,
    start_size: u64,
    end: u64,
    end_size: u64,
    out: &mut [u64],
) -> u8
    ensures { left result out.new ≡ leaves (of_size start_size (of_size end_size (pair (make_range (phys 52) start start_size end end_size)))) out.old }
{
    let Some(range) = choose_range::<PhysFrame>(start, start_size, end, end_size) else {
        return Status::NoSuchChoice as u8;
    };
    give_range(PhysFrame::range(range.start, range.end), out)
}

pub fn wuohtan_phys_frame_range_is_empty(
    start: u64,
    start_size: u64,
    end: u64,
    end_size: u64,
    out: &mut [u64],
) -> u8
    ensures { left result out.new ≡ leaves (of_size start_size (of_size end_size (truth (empty_below (phys 52) start start_size end end_size)))) out.old }
{
    let Some(range) = choose_range::<PhysFrame>(start, start_size, end, end_size) else {
        return Status::NoSuchChoice as u8;
    };
    give_word(range.is_empty(), out)
}

pub fn wuohtan_phys_frame_range_len(
    start: u64,
    start_size: u64,
    end: u64,
    end_size: u64,
    out: &mut [u64],
) -> u8
    ensures { left result out.new ≡ leaves (of_size start_size (of_size end_size (word (count_below (phys 52) start start_size end end_size)))) out.old }
{
    let Some(range) = choose_range::<PhysFrame>(start, start_size, end, end_size) else {
        return Status::NoSuchChoice as u8;
    };
    give_word(range.len(), out)
}

pub fn wuohtan_phys_frame_range_size(
    start: u64,
    start_size: u64,
    end: u64,
    end_size: u64,
    out: &mut [u64],
) -> u8
    ensures { left result out.new ≡ leaves (of_size start_size (of_size end_size (word (bytes_below (phys 52) start start_size end end_size)))) out.old }
{
    let Some(range) = choose_range::<PhysFrame>(start, start_size, end, end_size) else {
        return Status::NoSuchChoice as u8;
    };
    give_word(range.size(), out)
}

pub fn wuohtan_phys_frame_range_next(
    start: u64,
    start_size: u64,
    end: u64,
    end_size: u64,
    out: &mut [u64],
) -> u8
    ensures { left result out.new ≡ leaves (of_size start_size (of_size end_size (frame_draw_words (nth_of (frame_range_at start start_size end end_size) 0)))) out.old }
{
    let Some(mut range) = choose_range::<PhysFrame>(start, start_size, end, end_size) else {
        return Status::NoSuchChoice as u8;
    };
    let answer = range.next();
    give_draw(answer, range.start, range.end, out)
}

pub fn wuohtan_phys_frame_range_nth(
    start: u64,
    start_size: u64,
    end: u64,
    end_size: u64,
    n: u64,
    out: &mut [u64],
) -> u8
    ensures { left result out.new ≡ leaves (of_size start_size (of_size end_size (frame_draw_words (nth_of (frame_range_at start start_size end end_size) n)))) out.old }
{
    let Some(mut range) = choose_range::<PhysFrame>(start, start_size, end, end_size) else {
        return Status::NoSuchChoice as u8;
    };
    let answer = range.nth(n);
    give_draw(answer, range.start, range.end, out)
}

pub fn wuohtan_phys_frame_range_next_back(
    start: u64,
    start_size: u64,
    end: u64,
    end_size: u64,
    out: &mut [u64],
) -> u8
    ensures { left result out.new ≡ leaves (of_size start_size (of_size end_size (frame_draw_words (nth_back_of (frame_range_at start start_size end end_size) 0)))) out.old }
{
    let Some(mut range) = choose_range::<PhysFrame>(start, start_size, end, end_size) else {
        return Status::NoSuchChoice as u8;
    };
    let answer = range.next_back();
    give_draw(answer, range.start, range.end, out)
}

pub fn wuohtan_phys_frame_range_nth_back(
    start: u64,
    start_size: u64,
    end: u64,
    end_size: u64,
    n: u64,
    out: &mut [u64],
) -> u8
    ensures { left result out.new ≡ leaves (of_size start_size (of_size end_size (frame_draw_words (nth_back_of (frame_range_at start start_size end end_size) n)))) out.old }
{
    let Some(mut range) = choose_range::<PhysFrame>(start, start_size, end, end_size) else {
        return Status::NoSuchChoice as u8;
    };
    let answer = range.nth_back(n);
    give_draw(answer, range.start, range.end, out)
}

pub fn wuohtan_phys_frame_range_inclusive_new(
    start: u64,
    start_size: u64,
    end: u64,
    end_size: u64,
    out: &mut [u64],
) -> u8
    ensures { left result out.new ≡ leaves (of_size start_size (of_size end_size (pair (make_range (phys 52) start start_size end end_size)))) out.old }
{
    let Some(range) = choose_range_inclusive::<PhysFrame>(start, start_size, end, end_size) else {
        return Status::NoSuchChoice as u8;
    };
    give_range_inclusive(PhysFrame::range_inclusive(range.start, range.end), out)
}

pub fn wuohtan_phys_frame_range_inclusive_is_empty(
    start: u64,
    start_size: u64,
    end: u64,
    end_size: u64,
    out: &mut [u64],
) -> u8
    ensures { left result out.new ≡ leaves (of_size start_size (of_size end_size (truth (empty_through (phys 52) start start_size end end_size)))) out.old }
{
    let Some(range) = choose_range_inclusive::<PhysFrame>(start, start_size, end, end_size) else {
        return Status::NoSuchChoice as u8;
    };
    give_word(range.is_empty(), out)
}

pub fn wuohtan_phys_frame_range_inclusive_len(
    start: u64,
    start_size: u64,
    end: u64,
    end_size: u64,
    out: &mut [u64],
) -> u8
    ensures { left result out.new ≡ leaves (of_size start_size (of_size end_size (word (count_through (phys 52) start start_size end end_size)))) out.old }
{
    let Some(range) = choose_range_inclusive::<PhysFrame>(start, start_size, end, end_size) else {
        return Status::NoSuchChoice as u8;
    };
    give_word(range.len(), out)
}

pub fn wuohtan_phys_frame_range_inclusive_size(
    start: u64,
    start_size: u64,
    end: u64,
    end_size: u64,
    out: &mut [u64],
) -> u8
    ensures { left result out.new ≡ leaves (of_size start_size (of_size end_size (word (bytes_through (phys 52) start start_size end end_size)))) out.old }
{
    let Some(range) = choose_range_inclusive::<PhysFrame>(start, start_size, end, end_size) else {
        return Status::NoSuchChoice as u8;
    };
    give_word(range.size(), out)
}

pub fn wuohtan_phys_frame_range_inclusive_next(
    start: u64,
    start_size: u64,
    end: u64,
    end_size: u64,
    out: &mut [u64],
) -> u8
    ensures { left result out.new ≡ leaves (of_size start_size (of_size end_size (frame_draw_inclusive_words (nth_inclusive_of (frame_range_inclusive_at start start_size end end_size) 0)))) out.old }
{
    let Some(mut range) = choose_range_inclusive::<PhysFrame>(start, start_size, end, end_size)
    else {
        return Status::NoSuchChoice as u8;
    };
    let answer = range.next();
    give_draw(answer, range.start, range.end, out)
}

pub fn wuohtan_phys_frame_range_inclusive_nth(
    start: u64,
    start_size: u64,
    end: u64,
    end_size: u64,
    n: u64,
    out: &mut [u64],
) -> u8
    ensures { left result out.new ≡ leaves (of_size start_size (of_size end_size (frame_draw_inclusive_words (nth_inclusive_of (frame_range_inclusive_at start start_size end end_size) n)))) out.old }
{
    let Some(mut range) = choose_range_inclusive::<PhysFrame>(start, start_size, end, end_size)
    else {
        return Status::NoSuchChoice as u8;
    };
    let answer = range.nth(n);
    give_draw(answer, range.start, range.end, out)
}

pub fn wuohtan_phys_frame_range_inclusive_next_back(
    start: u64,
    start_size: u64,
    end: u64,
    end_size: u64,
    out: &mut [u64],
) -> u8
    ensures { left result out.new ≡ leaves (of_size start_size (of_size end_size (frame_draw_inclusive_words (nth_back_inclusive_of (frame_range_inclusive_at start start_size end end_size) 0)))) out.old }
{
    let Some(mut range) = choose_range_inclusive::<PhysFrame>(start, start_size, end, end_size)
    else {
        return Status::NoSuchChoice as u8;
    };
    let answer = range.next_back();
    give_draw(answer, range.start, range.end, out)
}

pub fn wuohtan_phys_frame_range_inclusive_nth_back(
    start: u64,
    start_size: u64,
    end: u64,
    end_size: u64,
    n: u64,
    out: &mut [u64],
) -> u8
    ensures { left result out.new ≡ leaves (of_size start_size (of_size end_size (frame_draw_inclusive_words (nth_back_inclusive_of (frame_range_inclusive_at start start_size end end_size) n)))) out.old }
{
    let Some(mut range) = choose_range_inclusive::<PhysFrame>(start, start_size, end, end_size)
    else {
        return Status::NoSuchChoice as u8;
    };
    let answer = range.nth_back(n);
    give_draw(answer, range.start, range.end, out)
}
