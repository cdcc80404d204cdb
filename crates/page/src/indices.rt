// Pages from their table indices.
ghost use Rattle.std.specs.Prelude.{◌≡◌, [], ◌∷◌, ◌<◌, true};
ghost use Rattle.laws.specs.Width.{sign_extend};
ghost use Rattle.laws.specs.Index.{assemble};
ghost use Rattle.addr.specs.Widths.{width_of, levels_of};
ghost use Rattle.page.specs.Page.{page_at, indices, fifth_index_fits};

use crate::page::Page;
use addr::Width;
use table::PageSize;

// The page of this size that the indices lead to, in the order in which a walk uses them.
#[tactic(auto, using(crate::proofs::Assembled::joined))]
pub(crate) fn assembled(
    width: Width,
    p5: u64,
    p4: u64,
    p3: u64,
    p2: u64,
    p1: u64,
    size: PageSize,
) -> Page
    requires small { (p5 < 512) × (p4 < 512) × (p3 < 512) × (p2 < 512) × (p1 < 512) }
    requires level { fifth_index_fits (levels_of width) p5 ≡ true }
    ensures { result ≡ page_at size (sign_extend (width_of width) (assemble (levels_of width) (indices (p1 ∷ p2 ∷ p3 ∷ p4 ∷ p5 ∷ [])) 0)) }
{
    let number = (p5 << 48) | ((p4 << 39) | ((p3 << 30) | ((p2 << 21) | (p1 << 12))));
    Page {
        start_address: width.new_truncate(number),
        size,
    }
}
