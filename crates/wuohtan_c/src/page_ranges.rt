// Exports: ranges of pages, as numbers, start and end, each with its size in bytes.
ghost use Rattle.std.specs.Prelude.{◌≡◌};
ghost use Rattle.laws.specs.Address.{virt};
ghost use Rattle.laws.specs.Range.{make_range, empty_below, empty_through, count_below, count_through, bytes_below, bytes_through};
ghost use Rattle.page.specs.Range.{nth_of, nth_back_of, nth_inclusive_of, nth_back_inclusive_of, as_4kib};
ghost use Rattle.status.specs.Convention.{left, leaves, word, truth};
ghost use Rattle.convention.specs.Choice.{at_width, of_size};
ghost use Rattle.convention.specs.Ranges.{pair, page_draw_words, page_draw_inclusive_words, page_range_at, page_range_inclusive_at};

#[unsafe(no_mangle)]
pub extern "C" fn wuohtan_page_range_new(
    width: u64,
    start: u64,
    start_size: u64,
    end: u64,
    end_size: u64,
    out: &mut [u64],
) -> u8
    ensures { left result out.new ≡ leaves (at_width width (of_size start_size (of_size end_size (pair (make_range (virt width) start start_size end end_size))))) out.old }
{
    wuohtan::page_ranges::wuohtan_page_range_new(width, start, start_size, end, end_size, out)
}

#[unsafe(no_mangle)]
pub extern "C" fn wuohtan_page_range_is_empty(
    width: u64,
    start: u64,
    start_size: u64,
    end: u64,
    end_size: u64,
    out: &mut [u64],
) -> u8
    ensures { left result out.new ≡ leaves (at_width width (of_size start_size (of_size end_size (truth (empty_below (virt width) start start_size end end_size))))) out.old }
{
    wuohtan::page_ranges::wuohtan_page_range_is_empty(width, start, start_size, end, end_size, out)
}

#[unsafe(no_mangle)]
pub extern "C" fn wuohtan_page_range_len(
    width: u64,
    start: u64,
    start_size: u64,
    end: u64,
    end_size: u64,
    out: &mut [u64],
) -> u8
    ensures { left result out.new ≡ leaves (at_width width (of_size start_size (of_size end_size (word (count_below (virt width) start start_size end end_size))))) out.old }
{
    wuohtan::page_ranges::wuohtan_page_range_len(width, start, start_size, end, end_size, out)
}

#[unsafe(no_mangle)]
pub extern "C" fn wuohtan_page_range_size(
    width: u64,
    start: u64,
    start_size: u64,
    end: u64,
    end_size: u64,
    out: &mut [u64],
) -> u8
    ensures { left result out.new ≡ leaves (at_width width (of_size start_size (of_size end_size (word (bytes_below (virt width) start start_size end end_size))))) out.old }
{
    wuohtan::page_ranges::wuohtan_page_range_size(width, start, start_size, end, end_size, out)
}

#[unsafe(no_mangle)]
pub extern "C" fn wuohtan_page_range_next(
    width: u64,
    start: u64,
    start_size: u64,
    end: u64,
    end_size: u64,
    out: &mut [u64],
) -> u8
    ensures { left result out.new ≡ leaves (at_width width (of_size start_size (of_size end_size (page_draw_words (nth_of width (page_range_at start start_size end end_size) 0))))) out.old }
{
    wuohtan::page_ranges::wuohtan_page_range_next(width, start, start_size, end, end_size, out)
}

#[unsafe(no_mangle)]
pub extern "C" fn wuohtan_page_range_nth(
    width: u64,
    start: u64,
    start_size: u64,
    end: u64,
    end_size: u64,
    n: u64,
    out: &mut [u64],
) -> u8
    ensures { left result out.new ≡ leaves (at_width width (of_size start_size (of_size end_size (page_draw_words (nth_of width (page_range_at start start_size end end_size) n))))) out.old }
{
    wuohtan::page_ranges::wuohtan_page_range_nth(width, start, start_size, end, end_size, n, out)
}

#[unsafe(no_mangle)]
pub extern "C" fn wuohtan_page_range_next_back(
    width: u64,
    start: u64,
    start_size: u64,
    end: u64,
    end_size: u64,
    out: &mut [u64],
) -> u8
    ensures { left result out.new ≡ leaves (at_width width (of_size start_size (of_size end_size (page_draw_words (nth_back_of width (page_range_at start start_size end end_size) 0))))) out.old }
{
    wuohtan::page_ranges::wuohtan_page_range_next_back(width, start, start_size, end, end_size, out)
}

#[unsafe(no_mangle)]
pub extern "C" fn wuohtan_page_range_nth_back(
    width: u64,
    start: u64,
    start_size: u64,
    end: u64,
    end_size: u64,
    n: u64,
    out: &mut [u64],
) -> u8
    ensures { left result out.new ≡ leaves (at_width width (of_size start_size (of_size end_size (page_draw_words (nth_back_of width (page_range_at start start_size end end_size) n))))) out.old }
{
    wuohtan::page_ranges::wuohtan_page_range_nth_back(
        width, start, start_size, end, end_size, n, out,
    )
}

#[unsafe(no_mangle)]
pub extern "C" fn wuohtan_page_range_as_4kib_page_range(
    width: u64,
    start: u64,
    start_size: u64,
    end: u64,
    end_size: u64,
    out: &mut [u64],
) -> u8
    ensures { left result out.new ≡ leaves (at_width width (of_size start_size (of_size end_size (pair (as_4kib width start start_size end end_size))))) out.old }
{
    wuohtan::page_ranges::wuohtan_page_range_as_4kib_page_range(
        width, start, start_size, end, end_size, out,
    )
}

#[unsafe(no_mangle)]
pub extern "C" fn wuohtan_page_range_inclusive_new(
    width: u64,
    start: u64,
    start_size: u64,
    end: u64,
    end_size: u64,
    out: &mut [u64],
) -> u8
    ensures { left result out.new ≡ leaves (at_width width (of_size start_size (of_size end_size (pair (make_range (virt width) start start_size end end_size))))) out.old }
{
    wuohtan::page_ranges::wuohtan_page_range_inclusive_new(
        width, start, start_size, end, end_size, out,
    )
}

#[unsafe(no_mangle)]
pub extern "C" fn wuohtan_page_range_inclusive_is_empty(
    width: u64,
    start: u64,
    start_size: u64,
    end: u64,
    end_size: u64,
    out: &mut [u64],
) -> u8
    ensures { left result out.new ≡ leaves (at_width width (of_size start_size (of_size end_size (truth (empty_through (virt width) start start_size end end_size))))) out.old }
{
    wuohtan::page_ranges::wuohtan_page_range_inclusive_is_empty(
        width, start, start_size, end, end_size, out,
    )
}

#[unsafe(no_mangle)]
pub extern "C" fn wuohtan_page_range_inclusive_len(
    width: u64,
    start: u64,
    start_size: u64,
    end: u64,
    end_size: u64,
    out: &mut [u64],
) -> u8
    ensures { left result out.new ≡ leaves (at_width width (of_size start_size (of_size end_size (word (count_through (virt width) start start_size end end_size))))) out.old }
{
    wuohtan::page_ranges::wuohtan_page_range_inclusive_len(
        width, start, start_size, end, end_size, out,
    )
}

#[unsafe(no_mangle)]
pub extern "C" fn wuohtan_page_range_inclusive_size(
    width: u64,
    start: u64,
    start_size: u64,
    end: u64,
    end_size: u64,
    out: &mut [u64],
) -> u8
    ensures { left result out.new ≡ leaves (at_width width (of_size start_size (of_size end_size (word (bytes_through (virt width) start start_size end end_size))))) out.old }
{
    wuohtan::page_ranges::wuohtan_page_range_inclusive_size(
        width, start, start_size, end, end_size, out,
    )
}

#[unsafe(no_mangle)]
pub extern "C" fn wuohtan_page_range_inclusive_next(
    width: u64,
    start: u64,
    start_size: u64,
    end: u64,
    end_size: u64,
    out: &mut [u64],
) -> u8
    ensures { left result out.new ≡ leaves (at_width width (of_size start_size (of_size end_size (page_draw_inclusive_words (nth_inclusive_of width (page_range_inclusive_at start start_size end end_size) 0))))) out.old }
{
    wuohtan::page_ranges::wuohtan_page_range_inclusive_next(
        width, start, start_size, end, end_size, out,
    )
}

#[unsafe(no_mangle)]
pub extern "C" fn wuohtan_page_range_inclusive_nth(
    width: u64,
    start: u64,
    start_size: u64,
    end: u64,
    end_size: u64,
    n: u64,
    out: &mut [u64],
) -> u8
    ensures { left result out.new ≡ leaves (at_width width (of_size start_size (of_size end_size (page_draw_inclusive_words (nth_inclusive_of width (page_range_inclusive_at start start_size end end_size) n))))) out.old }
{
    wuohtan::page_ranges::wuohtan_page_range_inclusive_nth(
        width, start, start_size, end, end_size, n, out,
    )
}

#[unsafe(no_mangle)]
pub extern "C" fn wuohtan_page_range_inclusive_next_back(
    width: u64,
    start: u64,
    start_size: u64,
    end: u64,
    end_size: u64,
    out: &mut [u64],
) -> u8
    ensures { left result out.new ≡ leaves (at_width width (of_size start_size (of_size end_size (page_draw_inclusive_words (nth_back_inclusive_of width (page_range_inclusive_at start start_size end end_size) 0))))) out.old }
{
    wuohtan::page_ranges::wuohtan_page_range_inclusive_next_back(
        width, start, start_size, end, end_size, out,
    )
}

#[unsafe(no_mangle)]
pub extern "C" fn wuohtan_page_range_inclusive_nth_back(
    width: u64,
    start: u64,
    start_size: u64,
    end: u64,
    end_size: u64,
    n: u64,
    out: &mut [u64],
) -> u8
    ensures { left result out.new ≡ leaves (at_width width (of_size start_size (of_size end_size (page_draw_inclusive_words (nth_back_inclusive_of width (page_range_inclusive_at start start_size end end_size) n))))) out.old }
{
    wuohtan::page_ranges::wuohtan_page_range_inclusive_nth_back(
        width, start, start_size, end, end_size, n, out,
    )
}
