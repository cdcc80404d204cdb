// Draws of the item n places from the front or from the back.
ghost use Rattle.std.specs.Prelude.{◌≡◌, reverse, ◌+◌, ◌-◌, ◌*◌, ◌^◌, ◌<◌, ltb};
ghost use Rattle.std.proofs.Math.ListN.{get_elem?};
ghost use Rattle.answer.specs.Answers.{option_of};
ghost use Rattle.laws.specs.Run.{run, below, through};
ghost use Rattle.laws.specs.Draw.{taken, front_below, back_below, front_through, back_through};
ghost use Rattle.table.specs.Level.{bytes_of};
ghost use Rattle.draw.specs.Draws.{draw_of};

use crate::range::NumberRange;
use table::PageSize;

// The item drawn, and where the range starts and ends after it.
#[derive(Clone, Copy, Debug, PartialEq, Eq)]
pub struct Draw {
    pub item: Option<u64>,
    pub start: u64,
    pub end: u64,
}

// How many of k items a draw of the one at n takes.
fn taken_of(k: u64, n: u64) -> u64
    ensures { result ≡ taken k n }
{
    n.saturating_add(1).min(k)
}

// The item n places on, of k whose last is below 2^64.
#[tactic(auto, using(crate::proofs::Draws::items))]
fn item_at(start: u64, size: PageSize, k: u64, n: u64) -> Option<u64>
    requires { start + (k - 1) * bytes_of size < 2 ^ 64 }
    ensures { option_of result ≡ get_elem? (run start (bytes_of size) k) n }
{
    (n < k).then(|| start + n * size.bytes())
}

// The item n places before the last, of k whose last is below 2^64.
#[tactic(auto, using(crate::proofs::Draws::items))]
fn item_back(start: u64, size: PageSize, k: u64, n: u64) -> Option<u64>
    requires { start + (k - 1) * bytes_of size < 2 ^ 64 }
    ensures { option_of result ≡ get_elem? (reverse (run start (bytes_of size) k)) n }
{
    (n < k).then(|| start + (k - 1 - n) * size.bytes())
}

// Whether the item n places on from start is past top.
fn past(start: u64, size: PageSize, n: u64, top: u64) -> bool
    ensures { result ≡ ltb top (start + n * bytes_of size) }
{
    top < start || size.count(top - start) < n
}

impl NumberRange {
    // From the front of the exclusive range.
    #[tactic(auto, using(crate::proofs::Draws::below))]
    pub fn front_below(self, n: u64) -> Draw
        ensures { draw_of result ≡ front_below (below self.start self.end (bytes_of self.size)) self.start self.end (bytes_of self.size) n }
    {
        let k = self.len_below();
        let item = item_at(self.start, self.size, k, n);
        let j = taken_of(k, n);
        Draw {
            item,
            start: self.start + j * self.size.bytes(),
            end: self.end,
        }
    }

    // From the back of the exclusive range.
    #[tactic(auto, using(crate::proofs::Draws::below))]
    pub fn back_below(self, n: u64) -> Draw
        ensures { draw_of result ≡ back_below (below self.start self.end (bytes_of self.size)) self.start self.end (bytes_of self.size) n }
    {
        let k = self.len_below();
        let item = item_back(self.start, self.size, k, n);
        let j = taken_of(k, n);
        Draw {
            item,
            start: self.start,
            end: self.end - j * self.size.bytes(),
        }
    }

    // From the front of the inclusive range; top is the topmost item of the size.
    #[tactic(auto, using(crate::proofs::Draws::through))]
    pub fn front_through(self, top: u64, n: u64) -> Draw
        ensures { draw_of result ≡ front_through (through self.start self.end (bytes_of self.size)) top self.start self.end (bytes_of self.size) n }
    {
        let k = self.len_through();
        let item = item_at(self.start, self.size, k, n);
        let j = taken_of(k, n);
        if past(self.start, self.size, j, top) {
            return Draw {
                item,
                start: top,
                end: top.saturating_sub(self.size.bytes()),
            };
        }
        Draw {
            item,
            start: self.start + j * self.size.bytes(),
            end: self.end,
        }
    }

    // From the back of the inclusive range.
    #[tactic(auto, using(crate::proofs::Draws::through))]
    pub fn back_through(self, n: u64) -> Draw
        ensures { draw_of result ≡ back_through (through self.start self.end (bytes_of self.size)) 0 self.start self.end (bytes_of self.size) n }
    {
        let k = self.len_through();
        let item = item_back(self.start, self.size, k, n);
        let j = taken_of(k, n);
        if past(0, self.size, j, self.end) {
            return Draw {
                item,
                start: self.start + self.size.bytes(),
                end: 0,
            };
        }
        Draw {
            item,
            start: self.start,
            end: self.end - j * self.size.bytes(),
        }
    }
}
