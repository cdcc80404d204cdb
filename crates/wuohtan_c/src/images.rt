// Exports: translation, the run search, and lists of searches.
ghost use Rattle.std.specs.Prelude.{◌≡◌};
ghost use Rattle.paging.specs.List.{listing};
ghost use Rattle.paging.specs.Search.{searching};
ghost use Rattle.paging.specs.Translate.{translation};
ghost use Rattle.status.specs.Convention.{left, leaves};
ghost use Rattle.convention.specs.Choice.{at_width, levels_with};
ghost use Rattle.convention.specs.Images.{translation_words, search_words, left_list, leaves_list_at, LeftBytesAt};

#[unsafe(no_mangle)]
pub extern "C" fn wuohtan_translate(
    width: u64,
    image: &[u64],
    base: u64,
    root: u64,
    addr: u64,
    out: &mut [u64],
) -> u8
    ensures { left result out.new ≡ leaves (at_width width (translation_words (translation width (levels_with width) image.now base root addr))) out.old }
{
    wuohtan::images::wuohtan_translate(width, image, base, root, addr, out)
}

#[unsafe(no_mangle)]
pub extern "C" fn wuohtan_search(
    width: u64,
    image: &[u64],
    base: u64,
    root: u64,
    page: u64,
    out: &mut [u64],
) -> u8
    ensures { left result out.new ≡ leaves (at_width width (search_words (searching width (levels_with width) image.now base root page))) out.old }
{
    wuohtan::images::wuohtan_search(width, image, base, root, page, out)
}

#[unsafe(no_mangle)]
pub extern "C" fn wuohtan_list(
    width: u64,
    image: &[u64],
    base: u64,
    root: u64,
    page: u64,
    empty_tables: &mut [u8],
    answers: &mut [u64],
    out: &mut [u64],
) -> u8
    ensures { (left_list answers.new result out.new ≡ leaves_list_at width (listing width (levels_with width) image.now base root page answers.old) answers.old out.old) × LeftBytesAt width image.now base root page out.old empty_tables.old empty_tables.new }
{
    wuohtan::images::wuohtan_list(width, image, base, root, page, empty_tables, answers, out)
}
