// The table of level 1 that a page is under. A search begins there: most answers end in the table in which they begin, and need no way down table by table.
// Words, segments and reserved bits come one by one, for the reason that tables.rt gives.
ghost use Rattle.std.specs.Prelude.{◌≡◌, ◌≤◌, ◌<◌, length};
ghost use Rattle.addr.specs.Widths.{levels_of};
ghost use Rattle.found.specs.Progress.{progress_of};
ghost use Rattle.mapping.specs.Walk.{span_pages};
ghost use Rattle.paging.specs.Progress.{GoesOn};
ghost use Rattle.image.specs.Tables.{HasTable, LowestFor, SearchedAll, TrueFor, lent};

use crate::span::span_end;
use crate::tables::{Table, look_at, pass_lowest, pass_table};
use addr::Width;
use empty_tables::is_empty;
use found::Progress;
use walk::{ALL_RIGHTS, Look, Segment, allows, levels, page_count, table_place};

// The table of level 1 that a page is under, in the tables below the one of the level at a place. None where an entry above it names no table in the image, or where it is
// known to hold nothing.
fn lowest_table(
    words: &[u64],
    segments: &[Segment],
    empty: &[u8],
    root: usize,
    level: u64,
    page: u64,
    reserved: u64,
) -> Option<Table>
    requires { (1 ≤ level) × (level ≤ 5) × HasTable (lent words.now segments.now reserved) root }
    ensures { LowestFor (lent words.now segments.now reserved) level root page result }
{
    let mut table = Table {
        place: root,
        rights: ALL_RIGHTS,
    };
    for below in (1..level).rev() {
        let Look::Next(address, word) = look_at(words, table, below, page, reserved) else {
            return None;
        };
        table = Table {
            place: table_place(words.len() as u64, segments, address)?,
            rights: table.rights & allows(word),
        };
    }
    if is_empty(empty, table.place, 0) {
        return None;
    }
    Some(table)
}

// Goes over the pages below the root from one on, if there are any, table by table.
fn pass_rest(
    words: &[u64],
    segments: &[Segment],
    empty: &mut [u8],
    progress: &mut Progress,
    root: usize,
    width: Width,
    from: u64,
    reserved: u64,
) -> u64
    requires going { GoesOn (progress_of progress.old) from }
    requires known { TrueFor (lent words.now segments.now reserved) empty.old }
    requires bounded { from ≤ span_pages (levels_of width) }
    requires inside { HasTable (lent words.now segments.now reserved) root }
    ensures { SearchedAll (lent words.now segments.now reserved) (levels_of width) root from (progress_of progress.old) (progress_of progress.new) empty.new result }
{
    if from == page_count(width) {
        return from;
    }
    let table = Table {
        place: root,
        rights: ALL_RIGHTS,
    };
    pass_table(
        words,
        segments,
        empty,
        progress,
        table,
        levels(width),
        from,
        reserved,
    )
}

// Goes over the pages below the root from one on, and answers the page that it comes to.
#[inline(always)]
pub(crate) fn pass_root(
    words: &[u64],
    segments: &[Segment],
    empty: &mut [u8],
    progress: &mut Progress,
    root: usize,
    width: Width,
    from: u64,
    reserved: u64,
) -> u64
    requires going { GoesOn (progress_of progress.old) from }
    requires known { TrueFor (lent words.now segments.now reserved) empty.old }
    requires bounded { from < span_pages (levels_of width) }
    requires inside { HasTable (lent words.now segments.now reserved) root }
    ensures { SearchedAll (lent words.now segments.now reserved) (levels_of width) root from (progress_of progress.old) (progress_of progress.new) empty.new result }
{
    let Some(table) = lowest_table(words, segments, empty, root, levels(width), from, reserved)
    else {
        return pass_rest(
            words, segments, empty, progress, root, width, from, reserved,
        );
    };
    let next = span_end(from, 1);
    let reached = pass_lowest(words, empty, progress, table, from, reserved);
    if reached < next {
        return reached;
    }
    pass_rest(
        words, segments, empty, progress, root, width, next, reserved,
    )
}
