// Translation, the run search, and lists of searches.
#![tactic(auto, using(convention::proofs::Choice::bits_with), unfolding(status::specs::Convention::leaves))]

ghost use Rattle.std.specs.Prelude.{◌≡◌};
ghost use Rattle.paging.specs.List.{listing};
ghost use Rattle.paging.specs.Search.{searching};
ghost use Rattle.paging.specs.Translate.{translation};
ghost use Rattle.status.specs.Convention.{left, leaves};
ghost use Rattle.convention.specs.Choice.{at_width, levels_with};
ghost use Rattle.convention.specs.Images.{translation_words, search_words, left_list, leaves_list_at, LeftBytesAt};

use addr::VirtAddr;
use convention::{LISTED_WORDS, choose_width, give_listed, give_search, give_translation};
use paging_mode::Paging;
use phys::PhysAddr;
use status::Status;

pub fn wuohtan_translate(
    width: u64,
    image: &[u64],
    base: u64,
    root: u64,
    addr: u64,
    out: &mut [u64],
) -> u8
    ensures { left result out.new ≡ leaves (at_width width (translation_words (translation width (levels_with width) image.now base root addr))) out.old }
{
    let Some(width) = choose_width(width) else {
        return Status::NoSuchChoice as u8;
    };
    give_translation(
        Paging { width }.translate(image, PhysAddr(base), PhysAddr(root), VirtAddr(addr)),
        out,
    )
}

pub fn wuohtan_search(
    width: u64,
    image: &[u64],
    base: u64,
    root: u64,
    page: u64,
    out: &mut [u64],
) -> u8
    ensures { left result out.new ≡ leaves (at_width width (search_words (searching width (levels_with width) image.now base root page))) out.old }
{
    let Some(width) = choose_width(width) else {
        return Status::NoSuchChoice as u8;
    };
    give_search(
        Paging { width }.search(image, PhysAddr(base), PhysAddr(root), VirtAddr(page)),
        out,
    )
}

// The answers go to their own words, five for each; which tables hold nothing is remembered in bytes.
pub fn wuohtan_list(
    width: u64,
    image: &[u64],
    base: u64,
    root: u64,
    page: u64,
    empty_tables: &mut [u8],
    answers: &mut [u64],
    out: &mut [u64],
) -> u8
    ensures { (left_list answers.new result out.new ≡ leaves_list_at width (listing width (levels_with width) image.now base root page answers.old) answers.old out.old) × LeftBytesAt width image.now base root page out.old empty_tables.old empty_tables.new }
{
    let Some(width) = choose_width(width) else {
        return Status::NoSuchChoice as u8;
    };
    if out.len() < LISTED_WORDS {
        return Status::NoRoom as u8;
    }
    let listed = Paging { width }.list(
        image,
        PhysAddr(base),
        PhysAddr(root),
        VirtAddr(page),
        empty_tables,
        answers,
    );
    give_listed(listed, out)
}
