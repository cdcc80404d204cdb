// Answers of the search.
ghost use Rattle.std.specs.Prelude.{◌≡◌};
ghost use Rattle.found.specs.Found.{answer_in, answer_of, end_of_half};
ghost use Rattle.found.specs.Progress.{progress_of};

use crate::progress::{Progress, StopReason};
use walk::Rights;

// An answer by the numbers of its pages and frames. A level is a number, 1 to 5, and no `PageTableLevel`: the walk counts its levels.
#[derive(Clone, Copy, Debug, PartialEq, Eq)]
pub enum Found {
    // No page from there on is mapped or broken.
    End,
    // So many pages, mapped from the frame on.
    Run {
        page: u64,
        frame: u64,
        count: u64,
        rights: Rights,
    },
    // The first page that is broken, the level of the entry that breaks it, and why.
    Stop {
        page: u64,
        level: u64,
        reason: StopReason,
    },
}

// The page after the half that a page is in, of so many pages.
fn half_end(page: u64, pages: u64) -> u64
    ensures { result ≡ end_of_half page pages }
{
    let half = pages / 2;
    if page < half { half } else { pages }
}

impl Progress {
    // What is found by a search that has come to a page, of so many pages: a run ends with its half.
    pub fn found(self, reached: u64, pages: u64) -> Found
        ensures { answer_of result ≡ answer_in pages (progress_of self) reached }
    {
        match self {
            Progress::Unfound => Found::End,
            Progress::Running {
                page,
                frame,
                rights,
            } => Found::Run {
                page,
                frame,
                count: reached.min(half_end(page, pages)).saturating_sub(page),
                rights: Rights::over(rights),
            },
            Progress::Stopped {
                page,
                level,
                reason,
            } => Found::Stop {
                page,
                level,
                reason,
            },
        }
    }
}
