// The search for mapped runs, by the numbers of pages and frames.
// Words, segments and reserved bits come one by one, for the reason that tables.rt gives.
ghost use Rattle.std.specs.Prelude.{◌≡◌, ◌<◌, length};
ghost use Rattle.addr.specs.Widths.{levels_of};
ghost use Rattle.found.specs.Found.{answer_of};
ghost use Rattle.mapping.specs.Search.{search};
ghost use Rattle.mapping.specs.Walk.{span_pages};
ghost use Rattle.image.specs.Found.{OfAnswer, Leaves};
ghost use Rattle.image.specs.Tables.{HasTable, TrueFor, lent, pages_below};

use crate::lowest::pass_root;
use crate::span::span_end;
use addr::Width;
use found::{Found, Progress};
use walk::{Segment, page_count};

// The first run or stop from a page on, in the tables below the root at a place.
// Inlined, as `pass_root` is: with a call for each answer, which went through memory, lists of short runs took 1.1 times the time.
#[inline(always)]
pub(crate) fn find(
    words: &[u64],
    segments: &[Segment],
    empty: &mut [u8],
    root: usize,
    width: Width,
    page: u64,
    reserved: u64,
) -> Found
    requires known { TrueFor (lent words.now segments.now reserved) empty.old }
    requires bounded { page < span_pages (levels_of width) }
    requires inside { HasTable (lent words.now segments.now reserved) root }
    ensures still_known { TrueFor (lent words.now segments.now reserved) empty.new }
    ensures kept { OfAnswer (span_pages (levels_of width)) result }
    ensures found { answer_of result ≡ search (pages_below (lent words.now segments.now reserved) (levels_of width) root) page }
{
    let mut progress = Progress::Unfound;
    let reached = pass_root(
        words,
        segments,
        empty,
        &mut progress,
        root,
        width,
        page,
        reserved,
    );
    progress.found(reached, page_count(width))
}

// The next page that an answer leaves, of so many pages.
#[tactic(auto, unfolding(mapping::specs::Search::next, paging::specs::Span::after))]
pub(crate) fn next_page(found: Found, pages: u64) -> u64
    requires { OfAnswer pages found }
    ensures { Leaves pages found result }
{
    match found {
        Found::End => pages,
        Found::Run { page, count, .. } => page + count,
        Found::Stop { page, level, .. } => span_end(page, level - 1),
    }
}
