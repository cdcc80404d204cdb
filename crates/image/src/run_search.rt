// The search for mapped runs.
ghost use Rattle.std.specs.Prelude.{◌≡◌};
ghost use Rattle.addr.specs.Widths.{width_of, levels_of};
ghost use Rattle.mapping.specs.Walk.{span_pages};
ghost use Rattle.paging.specs.Search.{report_words, searching};
ghost use Rattle.image.specs.Found.{OfAnswer, ReportsFound};
ghost use Rattle.image.specs.Search.{report_of, reported_of};

use crate::find::find;
use crate::numbers::{numbered_frame, numbered_page};
use crate::root::search_root;
use addr::{VirtAddr, Width};
use answer::Refusal;
use found::{Found, StopReason};
use frame::PhysFrame;
use page::Page;
use phys::PhysAddr;
use walk::{NO_MASK, Rights, Segment, page_number};

// How many words an answer takes: its kind, the address of its page, the address of its frame or its level, its count, its rights as bits.
pub const ANSWER_WORDS: usize = 5;

// The kinds of answers, numbers since they stand in lent words: nothing follows, a run, a stop at an entry with a reserved bit set, a stop at one whose table is not in the
// image.
pub const END: u64 = 0;

pub const RUN: u64 = 1;

pub const RESERVED: u64 = 2;

pub const OUTSIDE: u64 = 3;

// It differs from `Found` in the types of page and frame alone. One generic enum for both would be found's, and a type of another crate takes no method, so that `words` could
// be none: no plainer. A level is a number, 1 to 5, and no `PageTableLevel`: the walk counts its levels.
#[derive(Clone, Copy, Debug, PartialEq, Eq)]
pub enum SearchAnswer {
    // No page from there on is mapped or broken.
    End,
    // The first page that is broken, the level of the entry that breaks it, and why.
    Stop {
        page: Page,
        level: u64,
        reason: StopReason,
    },
    // The first page, its frame, how many pages, and their rights.
    Run {
        page: Page,
        frame: PhysFrame,
        count: u64,
        rights: Rights,
    },
}

impl SearchAnswer {
    // The answer as words.
    pub fn words(self) -> [u64; ANSWER_WORDS]
        ensures { result ≡ report_words (reported_of self) }
    {
        match self {
            SearchAnswer::End => [END, 0, 0, 0, 0],
            SearchAnswer::Run {
                page,
                frame,
                count,
                rights,
            } => [
                RUN,
                page.start_address.0,
                frame.start_address.0,
                count,
                rights.bits(),
            ],
            SearchAnswer::Stop {
                page,
                level,
                reason,
            } => {
                let kind = match reason {
                    StopReason::Reserved => RESERVED,
                    StopReason::Outside => OUTSIDE,
                };
                [kind, page.start_address.0, level, 0, 0]
            }
        }
    }
}

// What is reported of an answer.
pub(crate) fn reported(width: Width, found: Found) -> SearchAnswer
    requires { OfAnswer (span_pages (levels_of width)) found }
    ensures { ReportsFound (width_of width) found result }
{
    match found {
        Found::End => SearchAnswer::End,
        Found::Run {
            page,
            frame,
            count,
            rights,
        } => SearchAnswer::Run {
            page: numbered_page(width, page),
            frame: numbered_frame(frame),
            count,
            rights,
        },
        Found::Stop {
            page,
            level,
            reason,
        } => SearchAnswer::Stop {
            page: numbered_page(width, page),
            level,
            reason,
        },
    }
}

// The first run or stop from a 4 KiB page on, at 48 bits.
pub fn search(
    image: &[u64],
    base: PhysAddr,
    root: PhysAddr,
    page: VirtAddr,
) -> Result<SearchAnswer, Refusal>
    ensures { report_of result ≡ searching 48 4 image.now base.0 root.0 page.0 }
{
    search_at(Width::Bits48, image, base, root, page)
}

// The first run or stop from a 4 KiB page on.
#[tactic(auto, using(answer::proofs::Refused::refused_number, crate::proofs::Rooted::root_inside, crate::proofs::Rooted::root_pages), unfolding(paging::specs::Search::searching))]
pub fn search_at(
    width: Width,
    image: &[u64],
    base: PhysAddr,
    root: PhysAddr,
    page: VirtAddr,
) -> Result<SearchAnswer, Refusal>
    ensures { report_of result ≡ searching (width_of width) (levels_of width) image.now base.0 root.0 page.0 }
{
    let segments = [Segment::whole(image, base.0)];
    let at = search_root(width, image, &segments, base, root, page)?;
    let mut empty_tables = [0u8; 0];
    let from = page_number(width, page.0);
    let found = find(
        image,
        &segments,
        &mut empty_tables,
        at,
        width,
        from,
        NO_MASK,
    );
    Ok(reported(width, found))
}
