// Draws of the page n places from the front or from the back. Each has its own draw: a function that took it would
// have to take its contract too, and be no plainer.
ghost use Rattle.std.specs.Prelude.{◌≡◌};
ghost use Rattle.answer.specs.Answers.{outcome_of};
ghost use Rattle.laws.specs.Kind.{guarded};
ghost use Rattle.table.specs.Level.{bytes_of};
ghost use Rattle.draw.specs.Draws.{draw_of};
ghost use Rattle.addr.specs.Widths.{width_of};
ghost use Rattle.page_draw.specs.Draws.{nth_below, nth_back_below, nth_through, nth_back_through};

use crate::gap::{gap_back, gap_front};
use crate::half::{top_page, within_high_half, within_low_half};
use addr::Width;
use answer::Refusal;
use draw::Draw;
use item::{Item, check_both, numbers};

// From the front of an exclusive range.
#[tactic(auto, using(crate::proofs::Settled::nth_below))]
pub fn nth_below(width: Width, start: Item, end: Item, n: u64) -> Result<Draw, Refusal>
    ensures { outcome_of draw_of result ≡ guarded (nth_below (width_of width) start.start (bytes_of start.size) end.start (bytes_of end.size) n) }
{
    check_both(width, start, end)?;
    let range = numbers(start, end);
    if gap_front(width, range, n) {
        return Err(Refusal::DrawMeetsGap);
    }
    Ok(range.front_below(n))
}

// From the back of an exclusive range.
#[tactic(auto, using(crate::proofs::Settled::nth_back_below))]
pub fn nth_back_below(width: Width, start: Item, end: Item, n: u64) -> Result<Draw, Refusal>
    ensures { outcome_of draw_of result ≡ guarded (nth_back_below (width_of width) start.start (bytes_of start.size) end.start (bytes_of end.size) n) }
{
    check_both(width, start, end)?;
    let range = numbers(start, end);
    if gap_back(width, range, n) {
        return Err(Refusal::DrawMeetsGap);
    }
    Ok(range.back_below(n))
}

// From the front of an inclusive range.
#[tactic(auto, using(crate::proofs::Settled::nth_through))]
pub fn nth_through(width: Width, start: Item, end: Item, n: u64) -> Result<Draw, Refusal>
    ensures { outcome_of draw_of result ≡ guarded (nth_through (width_of width) start.start (bytes_of start.size) end.start (bytes_of end.size) n) }
{
    check_both(width, start, end)?;
    let range = numbers(start, end);
    if gap_front(width, range, n) {
        return Err(Refusal::DrawMeetsGap);
    }
    let draw = range.front_through(top_page(start.size), n);
    Ok(within_low_half(width, start.size, draw))
}

// From the back of an inclusive range.
#[tactic(auto, using(crate::proofs::Settled::nth_back_through))]
pub fn nth_back_through(width: Width, start: Item, end: Item, n: u64) -> Result<Draw, Refusal>
    ensures { outcome_of draw_of result ≡ guarded (nth_back_through (width_of width) start.start (bytes_of start.size) end.start (bytes_of end.size) n) }
{
    check_both(width, start, end)?;
    let range = numbers(start, end);
    if gap_back(width, range, n) {
        return Err(Refusal::DrawMeetsGap);
    }
    let draw = range.back_through(n);
    Ok(within_high_half(width, start.size, draw))
}
