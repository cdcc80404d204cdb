// Spans in 4 KiB pages.
ghost use Rattle.std.specs.Prelude.{◌≡◌};
ghost use Rattle.paging.specs.Span.{within};

// How far into the span of an entry of level below + 1 a page is. Those of level 9 and above would span more pages than there are numbers.
pub fn within_span(page: u64, below: u64) -> u64
    ensures { result ≡ within below page }
{
    if 8 <= below {
        return page;
    }
    page & ((1 << (9 * below)) - 1)
}
