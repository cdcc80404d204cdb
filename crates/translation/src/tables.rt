// The walk from a table down to what decides about a page.
ghost use Rattle.std.specs.Prelude.{◌≡◌, ◌+◌, ◌≤◌, length};
ghost use Rattle.mapping.specs.Walk.{walk};
ghost use Rattle.paging.specs.Entry.{entry_by};
ghost use Rattle.paging.specs.Memory.{table_from, table_in, Inside};
ghost use Rattle.paging.specs.Packed.{rights_over};
ghost use Rattle.paging.specs.Pages.{PageIn};
ghost use Rattle.walk.specs.Segments.{segments_of};
ghost use Rattle.translation.specs.Walked.{walked_of};
ghost use Rattle.translation.specs.Step.{Steps};

use walk::{
    Look, Rights, TABLE_WORDS, Tables, allows, frame_in, is_present, look_word, within_span,
};

// What the walk says of a page, with the level of the entry that decides.
#[derive(Clone, Copy)]
pub(crate) enum Walked {
    Absent(u64),
    Reserved(u64),
    Outside(u64),
    Mapped {
        frame: u64,
        level: u64,
        rights: Rights,
    },
}

// What the table of level 1 at a place says of a page. rights has the bits that every word above it has.
#[tactic(auto, using(crate::proofs::Entries::page_absent, crate::proofs::Entries::page_reserved, crate::proofs::Entries::page_mapped))]
fn walk_page(tables: &Tables, place: usize, page: u64, rights: u64) -> Walked
    requires { place + 512 ≤ length tables.now.words.now }
    ensures { PageIn tables.now.reserved tables.now.words.now place rights page (walked_of result) }
{
    let entry = tables.words[place + page as usize % TABLE_WORDS];
    if !is_present(entry) {
        return Walked::Absent(1);
    }
    if entry & tables.reserved != 0 {
        return Walked::Reserved(1);
    }
    Walked::Mapped {
        frame: frame_in(entry),
        level: 1,
        rights: Rights::over(rights & allows(entry)),
    }
}

// What one entry above level 1 says of a page.
pub(crate) enum Step {
    // It decides.
    Decided(Walked),
    // It names a table: its place, and the rights down to it.
    Down(usize, u64),
}

// What the entry says that a page is under, in the table of the level at a place. rights has the bits that every word above it has.
#[tactic(auto, using(crate::proofs::Entries::told_absent, crate::proofs::Entries::told_reserved, crate::proofs::Entries::told_leaf, crate::proofs::Entries::told_outside, crate::proofs::Entries::told_below, crate::proofs::Entries::lower_inside))]
pub(crate) fn step_down(tables: &Tables, place: usize, level: u64, page: u64, rights: u64) -> Step
    requires { (2 ≤ level) × (level ≤ 5) × Inside (segments_of tables.now.segments.now) tables.now.words.now place }
    ensures { Steps tables.now level place page rights result }
{
    let below = level - 1;
    let word = tables.words[place + (page >> (9 * below)) as usize % TABLE_WORDS];
    match look_word(word, level - 2, tables.reserved) {
        Look::Absent => Step::Decided(Walked::Absent(level)),
        Look::Reserved => Step::Decided(Walked::Reserved(level)),
        Look::Leaf(first, word) => Step::Decided(Walked::Mapped {
            frame: first + within_span(page, below),
            level,
            rights: Rights::over(rights & allows(word)),
        }),
        Look::Next(address, word) => match tables.place(address) {
            None => Step::Decided(Walked::Outside(level)),
            Some(lower) => Step::Down(lower, rights & allows(word)),
        },
    }
}

// Finds what the table of the level at a place says of a page. rights has the bits that every word above it has. The answer is written to found: a value handed back is
// copied at each level, and a translation then took 2.0 to 2.35 of the Rust's time, where at most 2.0 is wanted.
pub(crate) fn walk_table(
    tables: &Tables,
    place: usize,
    level: u64,
    page: u64,
    rights: u64,
    found: &mut Walked,
)
    requires { (2 ≤ level) × (level ≤ 5) × Inside (segments_of tables.now.segments.now) tables.now.words.now place }
    ensures { walked_of found.new ≡ walk (entry_by tables.now.reserved) (table_in (segments_of tables.now.segments.now) tables.now.words.now) level (table_from tables.now.words.now place) (rights_over rights) page }
{
    match step_down(tables, place, level, page, rights) {
        Step::Decided(walked) => *found = walked,
        Step::Down(lower, above) => {
            let below = level - 1;
            if below > 1 {
                walk_table(tables, lower, below, page, above, found);
            } else {
                *found = walk_page(tables, lower, page, above);
            }
        }
    }
}
