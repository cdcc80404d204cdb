// Draws of the first page or of the last: those with n = 0. Such a draw meets the gap where the range left would
// start or end in it; of an inclusive range, if moreover the other end is in the other half. Each has its own draw
// and its own test of the gap: a function that took both would have to take their contracts too, and be no plainer.
ghost use Rattle.std.specs.Prelude.{◌≡◌};
ghost use Rattle.answer.specs.Answers.{outcome_of};
ghost use Rattle.laws.specs.Kind.{guarded};
ghost use Rattle.table.specs.Level.{bytes_of};
ghost use Rattle.draw.specs.Draws.{draw_of};
ghost use Rattle.addr.specs.Widths.{width_of};
ghost use Rattle.page_draw.specs.Draws.{nth_below, nth_back_below, nth_through, nth_back_through};

use crate::half::{top_page, within_high_half, within_low_half};
use addr::Width;
use answer::Refusal;
use draw::Draw;
use item::{Item, check_both, numbers};

// From the front of an exclusive range.
#[tactic(auto, using(std::proofs::lemmas::Bool::Decides::nat_tests, crate::proofs::First::next_below, crate::proofs::Settled::nth_below))]
pub fn next_below(width: Width, start: Item, end: Item) -> Result<Draw, Refusal>
    ensures { outcome_of draw_of result ≡ guarded (nth_below (width_of width) start.start (bytes_of start.size) end.start (bytes_of end.size) 0) }
{
    check_both(width, start, end)?;
    let draw = numbers(start, end).next_below();
    if draw.start == width.half() {
        return Err(Refusal::DrawMeetsGap);
    }
    Ok(draw)
}

// From the back of an exclusive range.
#[tactic(auto, using(std::proofs::lemmas::Bool::Decides::nat_tests, crate::proofs::First::next_back_below, crate::proofs::Settled::nth_back_below))]
pub fn next_back_below(width: Width, start: Item, end: Item) -> Result<Draw, Refusal>
    ensures { outcome_of draw_of result ≡ guarded (nth_back_below (width_of width) start.start (bytes_of start.size) end.start (bytes_of end.size) 0) }
{
    check_both(width, start, end)?;
    let draw = numbers(start, end).next_back_below();
    if draw.end == width.first_high() - start.size.bytes() {
        return Err(Refusal::DrawMeetsGap);
    }
    Ok(draw)
}

// From the front of an inclusive range.
#[tactic(auto, using(std::proofs::lemmas::Bool::Decides::nat_tests, crate::proofs::First::next_through, crate::proofs::Settled::nth_through))]
pub fn next_through(width: Width, start: Item, end: Item) -> Result<Draw, Refusal>
    ensures { outcome_of draw_of result ≡ guarded (nth_through (width_of width) start.start (bytes_of start.size) end.start (bytes_of end.size) 0) }
{
    check_both(width, start, end)?;
    let draw = numbers(start, end).next_through(top_page(start.size));
    if draw.start == width.half() && width.first_high() <= end.start {
        return Err(Refusal::DrawMeetsGap);
    }
    Ok(within_low_half(width, start.size, draw))
}

// From the back of an inclusive range.
#[tactic(auto, using(std::proofs::lemmas::Bool::Decides::nat_tests, crate::proofs::First::next_back_through, crate::proofs::Settled::nth_back_through))]
pub fn next_back_through(width: Width, start: Item, end: Item) -> Result<Draw, Refusal>
    ensures { outcome_of draw_of result ≡ guarded (nth_back_through (width_of width) start.start (bytes_of start.size) end.start (bytes_of end.size) 0) }
{
    check_both(width, start, end)?;
    let draw = numbers(start, end).next_back_through();
    if draw.end == width.first_high() - start.size.bytes() && start.start < width.half() {
        return Err(Refusal::DrawMeetsGap);
    }
    Ok(within_high_half(width, start.size, draw))
}
