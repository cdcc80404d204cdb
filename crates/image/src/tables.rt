// The search over tables, each lower one by the same rule, one level down. The words, the segments and the bits that are reserved are parameters of their own and no struct, as
// `walk::Tables`: the compiler then sees that there is one segment and that no bit is reserved. Over the struct lists took 1.1 to 1.5 times the time, and short runs passed 1.5
// of the Rust's time, which is the most that is wanted. The bytes of empty tables and the progress are parameters too: of a struct that holds a `&mut` each contract would have
// to say that it is the same reference, which is no plainer.
ghost use Rattle.std.specs.Prelude.{◌≡◌, ◌+◌, ◌-◌, ◌^◌, ◌≤◌, ◌<◌, length};
ghost use Rattle.found.specs.Progress.{progress_of};
ghost use Rattle.paging.specs.Memory.{table_from};
ghost use Rattle.paging.specs.Progress.{GoesOn};
ghost use Rattle.image.specs.Tables.{HasTable, LooksAt, Searched, SearchedLowest, Steps, TrueFor, lent};

use crate::pages::pass_pages;
use crate::span::span_end;
use empty_tables::{is_empty, remember_whole};
use found::{Progress, StopReason};
use walk::{Look, Segment, TABLE_WORDS, allows, look_word, table_place, within_span};

// A table on the way down: its place in the lent words, and the bits that every word above it has.
#[derive(Clone, Copy)]
pub(crate) struct Table {
    pub place: usize,
    pub rights: u64,
}

// What the search does at an entry.
#[derive(Clone, Copy)]
pub(crate) enum Step {
    // It ends here, with what it has found.
    Halt,
    // It passes the entry's pages.
    Pass,
    // It goes on in a table.
    Down(Table),
}

// What the entry says that a page is under, in a table of level below + 1.
pub(crate) fn look_at(words: &[u64], table: Table, below: u64, page: u64, reserved: u64) -> Look
    requires { (1 ≤ below) × (below ≤ 4) × (table.place + 512 ≤ length words.now) }
    ensures { LooksAt words.now reserved table below page result }
{
    let word = words[table.place + (page >> (9 * below)) as usize % TABLE_WORDS];
    look_word(word, below - 1, reserved)
}

// What the search does at the entry that a page is under, in a table of level below + 1. The pages of a table that is known to hold nothing are passed at once.
fn step_at(
    words: &[u64],
    segments: &[Segment],
    empty: &[u8],
    progress: &mut Progress,
    table: Table,
    below: u64,
    page: u64,
    reserved: u64,
) -> Step
    requires going { GoesOn (progress_of progress.old) page }
    requires known { TrueFor (lent words.now segments.now reserved) empty.now }
    requires upper { (1 ≤ below) × (below ≤ 4) }
    requires bounded { page < 2 ^ 45 }
    requires inside { HasTable (lent words.now segments.now reserved) table.place }
    ensures { Steps (lent words.now segments.now reserved) below table page (progress_of progress.old) (progress_of progress.new) result }
{
    match look_at(words, table, below, page, reserved) {
        Look::Absent => {
            if progress.is_unfound() {
                Step::Pass
            } else {
                Step::Halt
            }
        }
        Look::Reserved => {
            progress.stop(page, below + 1, StopReason::Reserved);
            Step::Halt
        }
        Look::Leaf(first, word) => {
            let frame = first + within_span(page, below);
            if progress.take_by_bits(page, frame, table.rights & allows(word)) {
                Step::Pass
            } else {
                Step::Halt
            }
        }
        Look::Next(address, word) => {
            let Some(place) = table_place(words.len() as u64, segments, address) else {
                progress.stop(page, below + 1, StopReason::Outside);
                return Step::Halt;
            };
            if progress.is_unfound() && is_empty(empty, place, below - 1) {
                return Step::Pass;
            }
            Step::Down(Table {
                place,
                rights: table.rights & allows(word),
            })
        }
    }
}

// The table at a place, as a part of the lent words. Not by `first_chunk`: its `unwrap` would leave a test in the compiled code.
fn table_at(words: &[u64], place: usize) -> &[u64; TABLE_WORDS]
    requires { place + 512 ≤ length words.now }
    ensures { result.now ≡ table_from words.now place }
{
    &words[place..].as_chunks::<TABLE_WORDS>().0[0]
}

// Goes over the pages of a table of level 1, from one on.
pub(crate) fn pass_lowest(
    words: &[u64],
    empty: &mut [u8],
    progress: &mut Progress,
    table: Table,
    from: u64,
    reserved: u64,
) -> u64
    requires going { GoesOn (progress_of progress.old) from }
    requires bounded { from < 2 ^ 45 }
    requires inside { table.place + 512 ≤ length words.now }
    ensures { SearchedLowest words.now reserved table from (progress_of progress.old) (progress_of progress.new) empty.old empty.new result }
{
    let part = table_at(words, table.place);
    let reached = pass_pages(part, progress, from, table.rights, reserved);
    remember_whole(empty, progress.is_unfound(), table.place, 0, from);
    reached
}

// Goes over the pages of a table of the level, from one on, and answers the page that it comes to. One that is gone through whole and holds nothing is known from then on.
pub(crate) fn pass_table(
    words: &[u64],
    segments: &[Segment],
    empty: &mut [u8],
    progress: &mut Progress,
    table: Table,
    level: u64,
    from: u64,
    reserved: u64,
) -> u64
    requires going { GoesOn (progress_of progress.old) from }
    requires known { TrueFor (lent words.now segments.now reserved) empty.old }
    requires upper { (2 ≤ level) × (level ≤ 5) }
    requires bounded { from < 2 ^ 45 }
    requires inside { HasTable (lent words.now segments.now reserved) table.place }
    ensures { Searched (lent words.now segments.now reserved) level table from (progress_of progress.old) (progress_of progress.new) empty.new result }
{
    let below = level - 1;
    let end = span_end(from, level);
    let mut at = from;
    // The first step ends where its entry's span does, so pages are counted and no entries.
    while at < end {
        let next = span_end(at, below);
        match step_at(words, segments, empty, progress, table, below, at, reserved) {
            Step::Halt => return at,
            Step::Pass => {}
            Step::Down(lower) => {
                let reached = if below == 1 {
                    pass_lowest(words, empty, progress, lower, at, reserved)
                } else {
                    pass_table(words, segments, empty, progress, lower, below, at, reserved)
                };
                if reached < next {
                    return reached;
                }
            }
        }
        at = next;
    }
    remember_whole(empty, progress.is_unfound(), table.place, below, from);
    end
}
