// The search in a table of level 1.
ghost use Rattle.std.specs.Prelude.{◌+◌, ◌*◌, ◌^◌, ◌<◌};
ghost use Rattle.found.specs.Progress.{progress_of};
ghost use Rattle.paging.specs.Pages.{Alike, PassesPages};
ghost use Rattle.paging.specs.Progress.{GoesOn};

use found::{Progress, StopReason};
use walk::{TABLE_WORDS, allows, frame_in, is_present};

// The bits of an entry of level 1 that are read: present, the rights and the frame.
const READ: u64 = 0x800f_ffff_ffff_f007;

// Up to where the words from one on are alike: each, by the mask, is the one before it and step more, and has no reserved bit.
// Not inlined: in `pass_pages` its loop lay across a cache line, and lists in cache took 1.7 of the Rust's time in place of 1.24.
#[inline(never)]
fn alike(table: &[u64; TABLE_WORDS], from: usize, mask: u64, step: u64, reserved: u64) -> usize
    requires { (from < 512) × (mask + 512 * step < 2 ^ 64) }
    ensures { Alike table.now from mask step reserved result }
{
    let mut due = table[from] & mask;
    // The answer is an index, so the loop counts.
    for i in from + 1..TABLE_WORDS {
        due += step;
        let word = table[i];
        if word & mask != due || word & reserved != 0 {
            return i;
        }
    }
    TABLE_WORDS
}

// Goes over the pages from one on up to the end of their table, and answers the page that it comes to.
pub(crate) fn pass_pages(
    table: &[u64; TABLE_WORDS],
    progress: &mut Progress,
    from: u64,
    rights: u64,
    reserved: u64,
) -> u64
    requires going { GoesOn (progress_of progress.old) from }
    requires bounded { from < 2 ^ 45 }
    ensures { PassesPages reserved table.now rights from (progress_of progress.old) (progress_of progress.new) result }
{
    let first = from as usize % TABLE_WORDS;
    let start = from - first as u64;
    let mut i = first;
    // Words that are alike are passed at once, so the next one is where `alike` ends.
    while i < TABLE_WORDS {
        let page = start + i as u64;
        let word = table[i];
        if is_present(word) {
            if word & reserved != 0 {
                progress.stop(page, 1, StopReason::Reserved);
                return page;
            }
            if !progress.take_by_bits(page, frame_in(word), rights & allows(word)) {
                return page;
            }
            i = alike(table, i, READ, 0x1000, reserved);
        } else {
            if !progress.is_unfound() {
                return page;
            }
            i = alike(table, i, 1, 0, 0);
        }
    }
    start + TABLE_WORDS as u64
}
