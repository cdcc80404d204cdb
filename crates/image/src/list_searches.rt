// A list of searches, into lent words.
// Words, segments and reserved bits come one by one, for the reason that tables.rt gives.
ghost use Rattle.std.specs.Prelude.{◌≡◌, ◌<◌, length};
ghost use Rattle.answer.specs.Outcome.{gives};
ghost use Rattle.addr.specs.Widths.{width_of, levels_of};
ghost use Rattle.mapping.specs.Walk.{span_pages};
ghost use Rattle.paging.specs.List.{listing, settled, Remembered};
ghost use Rattle.paging.specs.Search.{answer_words, report, report_words};
ghost use Rattle.found.specs.Found.{answer_of};
ghost use Rattle.image.specs.Found.{OfAnswer};
ghost use Rattle.image.specs.List.{listing_of, written_of};
ghost use Rattle.image.specs.Tables.{HasTable, TrueFor, lent, pages_below};

use crate::find::{find, next_page};
use crate::numbers::numbered_page;
use crate::root::search_root;
use crate::run_search::{ANSWER_WORDS, reported};
use addr::{VirtAddr, Width};
use answer::Refusal;
use empty_tables::forget;
use found::Found;
use page::Page;
use phys::PhysAddr;
use walk::{NO_MASK, Segment, page_count, page_number};

// How many answers are written, and the next page; none if the search is over.
#[derive(Clone, Copy, Debug, PartialEq, Eq)]
pub struct Listed {
    pub written: u64,
    pub next: Option<Page>,
}

// Stores an answer's words over as many lent ones. Not by `copy_from_slice`: the compiled code would test whether the two overlap. In `list_from` itself
// the proof did not close: there the array is a part of a part of `out`.
fn store(part: &mut [u64], width: Width, found: Found)
    requires { (length part.old ≡ answer_words) × OfAnswer (span_pages (levels_of width)) found }
    ensures { part.new ≡ report_words (report (width_of width) (answer_of found)) }
{
    *part.as_mut_array::<ANSWER_WORDS>().unwrap() = reported(width, found).words();
}

// The answers of the searches from a page on, by its number, in the tables below the root at a place.
fn list_from(
    words: &[u64],
    segments: &[Segment],
    empty: &mut [u8],
    root: usize,
    width: Width,
    page: u64,
    reserved: u64,
    out: &mut [u64],
) -> Listed
    requires known { TrueFor (lent words.now segments.now reserved) empty.old }
    requires bounded { page < span_pages (levels_of width) }
    requires inside { HasTable (lent words.now segments.now reserved) root }
    ensures still_known { TrueFor (lent words.now segments.now reserved) empty.new }
    ensures listed { record { answer = gives (written_of result); words = out.new } ≡ settled (width_of width) (gives (pages_below (lent words.now segments.now reserved) (levels_of width) root)) page out.old }
{
    let pages = page_count(width);
    let room = out.len() / ANSWER_WORDS;
    let mut at = page;
    // The answer is a count, so the loop counts. It does not go over `as_chunks_mut`: that contract does not say what the slice ends as.
    for written in 0..room {
        if at == pages {
            return Listed {
                written: written as u64,
                next: None,
            };
        }
        let found = find(words, segments, empty, root, width, at, reserved);
        let start = written * ANSWER_WORDS;
        store(&mut out[start..start + ANSWER_WORDS], width, found);
        at = next_page(found, pages);
    }
    let next = if at == pages {
        None
    } else {
        Some(numbered_page(width, at))
    };
    Listed {
        written: room as u64,
        next,
    }
}

// The answers of the searches from a 4 KiB page on, each from the next page that the one before it left, as many as have room in out, five words each. Beyond them
// out is left as it was, and so is all of it on a refusal. In empty_tables the searches remember which tables hold nothing, a byte for each table and a bit for each level:
// what stands there before does not matter, and where there is no byte nothing is remembered. Both are lent as words and bytes: C lends them so, and a kernel has no heap here.
#[tactic(auto, using(answer::proofs::Refused::refused_number, crate::proofs::Rooted::root_inside), unfolding(paging::specs::List::listing))]
pub fn list_at(
    width: Width,
    image: &[u64],
    base: PhysAddr,
    root: PhysAddr,
    page: VirtAddr,
    empty_tables: &mut [u8],
    out: &mut [u64],
) -> Result<Listed, Refusal>
    ensures { (listing_of result out.new ≡ listing (width_of width) (levels_of width) image.now base.0 root.0 page.0 out.old) × Remembered (width_of width) image.now base.0 root.0 page.0 empty_tables.old empty_tables.new }
{
    let segments = [Segment::whole(image, base.0)];
    let at = search_root(width, image, &segments, base, root, page)?;
    forget(empty_tables);
    let from = page_number(width, page.0);
    Ok(list_from(
        image,
        &segments,
        empty_tables,
        at,
        width,
        from,
        NO_MASK,
        out,
    ))
}

// A list of searches at 48 bits.
pub fn list(
    image: &[u64],
    base: PhysAddr,
    root: PhysAddr,
    page: VirtAddr,
    empty_tables: &mut [u8],
    out: &mut [u64],
) -> Result<Listed, Refusal>
    ensures { (listing_of result out.new ≡ listing 48 4 image.now base.0 root.0 page.0 out.old) × Remembered 48 image.now base.0 root.0 page.0 empty_tables.old empty_tables.new }
{
    list_at(Width::Bits48, image, base, root, page, empty_tables, out)
}
