// The root of a search over one image.
// Words and segments come one by one, for the reason that tables.rt gives.
ghost use Rattle.std.specs.Prelude.{◌≡◌};
ghost use Rattle.addr.specs.Widths.{width_of};
ghost use Rattle.walk.specs.Segments.{segments_of};
ghost use Rattle.image.specs.Root.{Rooted, whole};

use addr::{VirtAddr, Width};
use answer::Refusal;
use phys::PhysAddr;
use walk::{Segment, check_4kib, image_place};

// The place of the root: base 2, 3; root 2, 3; 14; then 1 and 3 of the page.
#[tactic(auto, using(crate::proofs::Rooted::root_refused, crate::proofs::Rooted::page_refused, crate::proofs::Rooted::root_placed))]
pub(crate) fn search_root(
    width: Width,
    image: &[u64],
    segments: &[Segment],
    base: PhysAddr,
    root: PhysAddr,
    page: VirtAddr,
) -> Result<usize, Refusal>
    requires { segments_of segments.now ≡ whole image.now base.0 }
    ensures { Rooted (width_of width) image.now base.0 root.0 page.0 result }
{
    let place = image_place(image.len() as u64, segments, base.0, root.0)?;
    check_4kib(width, page.0)?;
    Ok(place)
}
