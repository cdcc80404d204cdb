// How tables are walked.
ghost use Rattle.std.specs.Prelude.{◌≡◌};
ghost use Rattle.addr.specs.Widths.{width_of, levels_of};
ghost use Rattle.paging.specs.List.{listing, Remembered};
ghost use Rattle.paging.specs.Search.{searching};
ghost use Rattle.paging.specs.Translate.{translation};
ghost use Rattle.image.specs.List.{listing_of};
ghost use Rattle.image.specs.Search.{report_of};
ghost use Rattle.translation.specs.Translate.{translation_of};

use addr::{VirtAddr, Width};
use answer::Refusal;
use image::{Listed, SearchAnswer, list_at, search_at};
use phys::PhysAddr;
use translation::{TranslateAnswer, translate_at};

// A struct of one field: what else a board varies enters here.
#[derive(Clone, Copy, Debug, PartialEq, Eq)]
pub struct Paging {
    pub width: Width,
}

impl Paging {
    // Where an address leads in the tables below root, and with which rights: base 2, 3; root 2, 3; then 14; then 1 of the address.
    pub fn translate(
        self,
        image: &[u64],
        base: PhysAddr,
        root: PhysAddr,
        addr: VirtAddr,
    ) -> Result<TranslateAnswer, Refusal>
        ensures { translation_of result ≡ translation (width_of self.width) (levels_of self.width) image.now base.0 root.0 addr.0 }
    {
        translate_at(self.width, image, base, root, addr)
    }

    // The first run or stop from a 4 KiB page on: refused as a translation is, then 1 and 3 of the page.
    pub fn search(
        self,
        image: &[u64],
        base: PhysAddr,
        root: PhysAddr,
        page: VirtAddr,
    ) -> Result<SearchAnswer, Refusal>
        ensures { report_of result ≡ searching (width_of self.width) (levels_of self.width) image.now base.0 root.0 page.0 }
    {
        search_at(self.width, image, base, root, page)
    }

    // The answers of the searches from a 4 KiB page on, as many as have room in out, five words each; refused as a search is.
    pub fn list(
        self,
        image: &[u64],
        base: PhysAddr,
        root: PhysAddr,
        page: VirtAddr,
        empty_tables: &mut [u8],
        out: &mut [u64],
    ) -> Result<Listed, Refusal>
        ensures { (listing_of result out.new ≡ listing (width_of self.width) (levels_of self.width) image.now base.0 root.0 page.0 out.old) × Remembered (width_of self.width) image.now base.0 root.0 page.0 empty_tables.old empty_tables.new }
    {
        list_at(self.width, image, base, root, page, empty_tables, out)
    }
}
