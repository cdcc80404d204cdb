// The pages of a width, by their numbers.
ghost use Rattle.std.specs.Prelude.{◌≡◌};
ghost use Rattle.addr.specs.Widths.{width_of, levels_of};
ghost use Rattle.mapping.specs.Walk.{span_pages};
ghost use Rattle.paging.specs.Translate.{page_number};

use addr::Width;

// How many levels of tables the width has.
pub fn levels(width: Width) -> u64
    ensures { result ≡ levels_of width }
{
    width.highest_level().number() as u64
}

// How many 4 KiB pages it has.
pub fn page_count(width: Width) -> u64
    ensures { result ≡ span_pages (levels_of width) }
{
    width.size() >> 12
}

// The page of an address, by its number.
pub fn page_number(width: Width, addr: u64) -> u64
    ensures { result ≡ page_number (width_of width) addr }
{
    width.low(addr) >> 12
}
