// Numbers up to a last one: an index into a table and an offset into a page.
ghost use Rattle.std.specs.Prelude.{◌≡◌, ◌+◌, ◌%◌};
ghost use Rattle.answer.specs.Answers.{u64_of};
ghost use Rattle.table.specs.Answers.{small_of};
ghost use Rattle.table.specs.Index.{small};

use answer::Refusal;

// How many entries a table has.
pub const ENTRY_COUNT: u16 = 512;

// The index of the last one.
const LAST_INDEX: u16 = ENTRY_COUNT - 1;

// A nine-bit index into a table.
pub type PageTableIndex = UpTo<LAST_INDEX>;

// A twelve-bit offset into a 4 KiB page.
pub type PageOffset = UpTo<4095>;

// The parameter is the last number and not how many there are: so it is no 0, and `new_truncate` has an
// answer whatever it is.
#[derive(Clone, Copy, Debug, PartialEq, Eq, PartialOrd, Ord)]
pub struct UpTo<const LAST: u16>(pub u16);

impl<const LAST: u16> UpTo<LAST> {
    // The index or offset with this number; 9 if it is too large.
    pub fn new(number: u64) -> Result<UpTo<LAST>, Refusal>
        ensures { small_of result ≡ small (LAST + 1) number }
    {
        if number <= LAST as u64 {
            Ok(UpTo(number as u16))
        } else {
            Err(Refusal::IndexTooLarge)
        }
    }

    // The one with the number's low bits.
    pub fn new_truncate(number: u64) -> UpTo<LAST>
        ensures { result.0 ≡ number % (LAST + 1) }
    {
        UpTo((number % (LAST as u64 + 1)) as u16)
    }

    // Its number; 9 if it is too large.
    pub fn into_u64(self) -> Result<u64, Refusal>
        ensures { u64_of result ≡ small (LAST + 1) self.entry.0 }
    {
        if self.0 <= LAST {
            Ok(self.0 as u64)
        } else {
            Err(Refusal::IndexTooLarge)
        }
    }
}
