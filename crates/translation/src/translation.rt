// Translation of an address.
ghost use Rattle.std.specs.Prelude.{◌≡◌};
ghost use Rattle.addr.specs.Widths.{width_of, levels_of};
ghost use Rattle.paging.specs.Memory.{Inside};
ghost use Rattle.paging.specs.Packed.{Fits};
ghost use Rattle.paging.specs.Translate.{translated, translation, translation_from};
ghost use Rattle.walk.specs.Segments.{segments_of};
ghost use Rattle.translation.specs.Walked.{walked_of};
ghost use Rattle.translation.specs.Translate.{SizeAt, translated_of, translation_of};

use crate::tables::{Step, Walked, step_down, walk_table};
use addr::{VirtAddr, Width};
use address::Addresses;
use answer::Refusal;
use phys::PhysAddr;
use table::PageSize;
use walk::{ALL_RIGHTS, NO_MASK, Rights, Segment, Tables, image_place, levels, page_number};

// The number is the level of the entry that decides, 1 to 5. It is no `PageTableLevel`: the walk counts its levels.
#[derive(Clone, Copy, Debug, PartialEq, Eq)]
pub enum TranslateAnswer {
    Mapped(PhysAddr, PageSize, Rights),
    Absent(u64),
    Reserved(u64),
    Outside(u64),
}

// The size of the pages that an entry of level 1, 2 or 3 maps.
fn size_at(level: u64) -> PageSize
    ensures { SizeAt level result }
{
    match level {
        1 => PageSize::Size4KiB,
        2 => PageSize::Size2MiB,
        _ => PageSize::Size1GiB,
    }
}

// The answer for an address, by what the walk says of its page.
fn answer_for(addr: u64, found: Walked) -> TranslateAnswer
    requires { Fits (walked_of found) }
    ensures { translated_of result ≡ translated addr (walked_of found) }
{
    match found {
        Walked::Absent(level) => TranslateAnswer::Absent(level),
        Walked::Reserved(level) => TranslateAnswer::Reserved(level),
        Walked::Outside(level) => TranslateAnswer::Outside(level),
        Walked::Mapped {
            frame,
            level,
            rights,
        } => TranslateAnswer::Mapped(
            PhysAddr(frame * 0x1000 + (addr & 0xfff)),
            size_at(level),
            rights,
        ),
    }
}

// Where an address leads in the tables below the root at a place, and with which rights: 1 of the address. A table of level 5 is stepped through here: so there is one call of
// `walk_table`, for four levels, and the compiler makes one way down of it. With as many levels as the width has a translation at 48 bits took 1.3 times as long.
fn translate_from(
    tables: &Tables,
    root: usize,
    width: Width,
    addr: u64,
) -> Result<TranslateAnswer, Refusal>
    requires { Inside (segments_of tables.now.segments.now) tables.now.words.now root }
    ensures { translation_of result ≡ translation_from (width_of width) (levels_of width) tables.now.reserved (segments_of tables.now.segments.now) tables.now.words.now root addr }
{
    let (page, place, rights) = match width {
        Width::Bits48 => {
            let addr = Width::Bits48.argument(addr)?;
            (page_number(Width::Bits48, addr), root, ALL_RIGHTS)
        }
        Width::Bits57 => {
            let addr = Width::Bits57.argument(addr)?;
            let page = page_number(Width::Bits57, addr);
            match step_down(tables, root, 5, page, ALL_RIGHTS) {
                Step::Decided(walked) => return Ok(answer_for(addr, walked)),
                Step::Down(lower, above) => (page, lower, above),
            }
        }
    };
    let mut found = Walked::Absent(0);
    walk_table(tables, place, 4, page, rights, &mut found);
    Ok(answer_for(addr, found))
}

// Where an address leads in the tables below root, at 48 bits.
pub fn translate(
    image: &[u64],
    base: PhysAddr,
    root: PhysAddr,
    addr: VirtAddr,
) -> Result<TranslateAnswer, Refusal>
    ensures { translation_of result ≡ translation 48 4 image.now base.0 root.0 addr.0 }
{
    translate_at(Width::Bits48, image, base, root, addr)
}

// Where an address leads in the tables below root, and with which rights: base 2, 3; root 2, 3; then 14; then 1 of the address.
#[tactic(auto, using(crate::proofs::Images::image_refused, crate::proofs::Images::image_inside, crate::proofs::Images::image_translated))]
pub fn translate_at(
    width: Width,
    image: &[u64],
    base: PhysAddr,
    root: PhysAddr,
    addr: VirtAddr,
) -> Result<TranslateAnswer, Refusal>
    ensures { translation_of result ≡ translation (width_of width) (levels_of width) image.now base.0 root.0 addr.0 }
{
    let segments = [Segment::whole(image, base.0)];
    let at = image_place(image.len() as u64, &segments, base.0, root.0)?;
    let tables = Tables {
        words: image,
        segments: &segments,
        reserved: NO_MASK,
    };
    translate_from(&tables, at, width, addr.0)
}
