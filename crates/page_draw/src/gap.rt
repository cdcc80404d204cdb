// Whether a draw of pages meets the gap, from the front and from the back of a range of either kind.
ghost use Rattle.std.specs.Prelude.{◌≡◌};
ghost use Rattle.laws.specs.Draw.{gap_front, gap_back};
ghost use Rattle.table.specs.Level.{bytes_of};
ghost use Rattle.addr.specs.Widths.{width_of};

use addr::Width;
use draw::NumberRange;

// From the front: a low start, a high end, and n reaches the last low page.
#[tactic(auto, using(std::proofs::lemmas::Bool::Decides::nat_tests), unfolding(laws::specs::Draw::gap_front))]
pub(crate) fn gap_front(width: Width, range: NumberRange, n: u64) -> bool
    ensures { result ≡ gap_front (width_of width) range.start range.end (bytes_of range.size) n }
{
    let half = width.half();
    range.start < half
        && width.first_high() <= range.end
        && range.size.count(half - range.start) <= n.saturating_add(1)
}

// From the back: a high end, a low start, and n reaches the first high page of an inclusive range, or past
// it in an exclusive one.
#[tactic(auto, using(std::proofs::lemmas::Bool::Decides::nat_tests), unfolding(laws::specs::Draw::gap_back))]
pub(crate) fn gap_back(width: Width, range: NumberRange, n: u64) -> bool
    ensures { result ≡ gap_back (width_of width) range.start range.end (bytes_of range.size) n }
{
    let high = width.first_high();
    high <= range.end && range.start < width.half() && range.size.count(range.end - high) <= n
}
