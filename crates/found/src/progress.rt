// What a search has found on its way.
ghost use Rattle.std.specs.Prelude.{◌≡◌, eqb, true, false};
ghost use Rattle.std.specs.Int.Bits.{bit_and};
ghost use Rattle.paging.specs.Packed.{rights_bits, rights_over};
ghost use Rattle.paging.specs.Progress.{Halts, Takes, finds_nothing};
ghost use Rattle.walk.specs.Rights.{rights_held};
ghost use Rattle.found.specs.Progress.{begun_at, progress_of, reason_of, rights_mask, rights_word};

use walk::Rights;

// Why a page is broken: an entry has a reserved bit set, or the table that it names is not in the image.
#[derive(Clone, Copy, Debug, PartialEq, Eq)]
pub enum StopReason {
    Reserved,
    Outside,
}

// What is lent from table to table. A level is a number here too, for the reason that `Found` gives.
#[derive(Clone, Copy, Debug, PartialEq, Eq)]
pub enum Progress {
    // Absent pages alone.
    Unfound,
    // A run, by its first page and frame. Its rights are a word, as those of a walk are, in which `take` leaves no other bits: an entry is told to belong to it by one test,
    // where three truth values take three.
    Running {
        page: u64,
        frame: u64,
        rights: u64,
    },
    // A broken page, and the level of the entry that breaks it.
    Stopped {
        page: u64,
        level: u64,
        reason: StopReason,
    },
}

// The bits of a walk's word that say its rights.
const RIGHTS: u64 = 0x8000_0000_0000_0006;

// Whether two words of a walk say the same rights: the bits 1, 2 and 63 do, so this is one test of a word.
#[tactic(auto, using(paging::proofs::RightsBits::same_bits))]
fn say_same(one: u64, other: u64) -> bool
    ensures { result ≡ eqb (rights_bits (rights_over one)) (rights_bits (rights_over other)) }
{
    (one >> 1) & 3 == (other >> 1) & 3 && one >> 63 == other >> 63
}

// A word that says the rights, as those of a walk do.
fn word_of(rights: Rights) -> u64
    ensures says { rights_over result ≡ rights_held rights }
    ensures word { result ≡ rights_word (rights_held rights) }
{
    let writable = u64::from(rights.writable);
    let user = u64::from(rights.user);
    let execute = u64::from(!rights.no_execute);
    (writable << 1) + (user << 2) + (execute << 63)
}

impl Progress {
    // Whether absent pages alone are found.
    pub fn is_unfound(self) -> bool
        ensures { result ≡ finds_nothing (progress_of self) }
    {
        matches!(self, Progress::Unfound)
    }

    // Stops at a broken page, unless something is found before it.
    pub fn stop(&mut self, page: u64, level: u64, reason: StopReason)
        ensures halts { Halts page level (reason_of reason) (progress_of self.old) (progress_of self.new) }
        ensures kept { finds_nothing (progress_of self.old) ≡ false → self.new ≡ self.old }
    {
        if self.is_unfound() {
            *self = Progress::Stopped {
                page,
                level,
                reason,
            };
        }
    }

    // Takes a page that is mapped to a frame: it begins a run, or belongs to the one found, or ends it, which is false.
    pub fn take(&mut self, page: u64, frame: u64, rights: Rights) -> bool
        ensures takes { Takes page frame (rights_held rights) (progress_of self.old) (progress_of self.new) result }
        ensures kept { finds_nothing (progress_of self.old) ≡ false → self.new ≡ self.old }
        ensures begun { finds_nothing (progress_of self.old) ≡ true → self.new ≡ begun_at page frame (rights_word (rights_held rights)) }
    {
        self.take_by_bits(page, frame, word_of(rights))
    }

    // The same by the bits that all words of a walk have, as `Rights::over` reads them.
    #[tactic(auto, using(paging::proofs::RightsBits::kept_bits))]
    pub fn take_by_bits(&mut self, page: u64, frame: u64, all: u64) -> bool
        ensures takes { Takes page frame (rights_over all) (progress_of self.old) (progress_of self.new) result }
        ensures kept { finds_nothing (progress_of self.old) ≡ false → self.new ≡ self.old }
        ensures begun { finds_nothing (progress_of self.old) ≡ true → self.new ≡ begun_at page frame (bit_and all rights_mask) }
    {
        match *self {
            Progress::Unfound => {
                *self = Progress::Running {
                    page,
                    frame,
                    rights: all & RIGHTS,
                };
                true
            }
            Progress::Running {
                page: first,
                frame: start,
                rights,
            } => {
                say_same(rights, all)
                    && frame.checked_sub(start) == Some(page.saturating_sub(first))
            }
            Progress::Stopped { .. } => false,
        }
    }
}
