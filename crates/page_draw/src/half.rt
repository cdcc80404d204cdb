// The last pages of the halves. A draw on numbers may leave the start just past the low half, or the end just
// below the high one. Where the gap does not refuse it, the range has no page in the other half, and start and end
// are set by the last page of its own.
ghost use Rattle.std.specs.Prelude.{◌≡◌};
ghost use Rattle.laws.specs.Draw.{top_page};
ghost use Rattle.laws.proofs.Within.{within_low_half, within_high_half};
ghost use Rattle.table.specs.Level.{bytes_of};
ghost use Rattle.draw.specs.Draws.{draw_of};
ghost use Rattle.addr.specs.Widths.{width_of};

use addr::Width;
use draw::Draw;
use table::PageSize;

// The topmost page of a size.
pub fn top_page(size: PageSize) -> u64
    ensures { result ≡ top_page (bytes_of size) }
{
    u64::MAX - (size.bytes() - 1)
}

// A draw from the front, with the start on the last low page where it would be past it, and the end one page
// below.
#[tactic(auto, using(std::proofs::lemmas::Bool::Decides::nat_tests, crate::proofs::Room::low_room))]
pub(crate) fn within_low_half(width: Width, size: PageSize, draw: Draw) -> Draw
    ensures { draw_of result ≡ within_low_half (width_of width) (bytes_of size) (draw_of draw) }
{
    let half = width.half();
    if draw.start != half {
        return draw;
    }
    let last = half - size.bytes();
    Draw {
        start: last,
        end: last - size.bytes(),
        ..draw
    }
}

// A draw from the back, with the end on the first high page where it would be below it, and the start one page
// above.
#[tactic(auto, using(std::proofs::lemmas::Bool::Decides::nat_tests, crate::proofs::Room::high_room))]
pub(crate) fn within_high_half(width: Width, size: PageSize, draw: Draw) -> Draw
    ensures { draw_of result ≡ within_high_half (width_of width) (bytes_of size) (draw_of draw) }
{
    let high = width.first_high();
    if draw.end != high - size.bytes() {
        return draw;
    }
    Draw {
        start: high + size.bytes(),
        end: high,
        ..draw
    }
}
