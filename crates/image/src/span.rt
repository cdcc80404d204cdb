// Spans in 4 KiB pages.
ghost use Rattle.std.specs.Prelude.{◌≡◌, ◌^◌, ◌<◌, ◌≤◌};
ghost use Rattle.mapping.specs.Walk.{span_pages};
ghost use Rattle.paging.specs.Span.{after};

use table::SPANS;

// The pages that an entry of level below + 1 spans; at 5, what the whole level-5 table does.
fn span_pages(below: u64) -> u64
    requires { below ≤ 5 }
    ensures { result ≡ span_pages below }
{
    SPANS[below as usize] >> 12
}

// The page after the last of the span of such an entry that a page is in.
pub(crate) fn span_end(page: u64, below: u64) -> u64
    requires { (below ≤ 5) × (page < 2 ^ 45) }
    ensures { result ≡ after below page }
{
    let pages = span_pages(below);
    page - (page & (pages - 1)) + pages
}
