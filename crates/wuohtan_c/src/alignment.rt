// Exports: alignment of plain numbers.
ghost use Rattle.std.specs.Prelude.{◌≡◌};
ghost use Rattle.laws.specs.Align.{align_down, align_up};
ghost use Rattle.status.specs.Convention.{left, leaves, word};

#[unsafe(no_mangle)]
pub extern "C" fn wuohtan_align_down(addr: u64, align: u64, out: &mut [u64]) -> u8
    ensures { left result out.new ≡ leaves (word (align_down addr align)) out.old }
{
    wuohtan::alignment::wuohtan_align_down(addr, align, out)
}

#[unsafe(no_mangle)]
pub extern "C" fn wuohtan_align_up(addr: u64, align: u64, out: &mut [u64]) -> u8
    ensures { left result out.new ≡ leaves (word (align_up addr align)) out.old }
{
    wuohtan::alignment::wuohtan_align_up(addr, align, out)
}
