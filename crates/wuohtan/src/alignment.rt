// Alignment of plain numbers.
ghost use Rattle.std.specs.Prelude.{◌≡◌};
ghost use Rattle.laws.specs.Align.{align_down, align_up};
ghost use Rattle.status.specs.Convention.{left, leaves, word};

use align::{align_down, align_up};
use convention::give_word;

pub fn wuohtan_align_down(addr: u64, align: u64, out: &mut [u64]) -> u8
    ensures { left result out.new ≡ leaves (word (align_down addr align)) out.old }
{
    give_word(align_down(addr, align), out)
}

pub fn wuohtan_align_up(addr: u64, align: u64, out: &mut [u64]) -> u8
    ensures { left result out.new ≡ leaves (word (align_up addr align)) out.old }
{
    give_word(align_up(addr, align), out)
}
