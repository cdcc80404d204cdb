// Draws of the first and of the last item, with no length and so no division: those of `draw` at n = 0.
ghost use Rattle.std.specs.Prelude.{◌≡◌, ◌-◌, ltb};
ghost use Rattle.laws.specs.Run.{below, through};
ghost use Rattle.laws.specs.Draw.{front_below, back_below, front_through, back_through};
ghost use Rattle.table.specs.Level.{bytes_of};
ghost use Rattle.draw.specs.Draws.{draw_of};

use crate::draw::Draw;
use crate::range::NumberRange;

impl NumberRange {
    // Whether no item has room from start on, below end.
    fn none_below(self) -> bool
        ensures { result ≡ ltb (self.end - self.start) (bytes_of self.size) }
    {
        self.end.saturating_sub(self.start) < self.size.bytes()
    }

    // From the front of the exclusive range.
    #[tactic(auto, using(crate::proofs::Draws::next_below))]
    pub fn next_below(self) -> Draw
        ensures { draw_of result ≡ front_below (below self.start self.end (bytes_of self.size)) self.start self.end (bytes_of self.size) 0 }
    {
        let NumberRange { start, end, size } = self;
        if self.none_below() {
            return Draw {
                item: None,
                start,
                end,
            };
        }
        Draw {
            item: Some(start),
            start: start + size.bytes(),
            end,
        }
    }

    // From the back of the exclusive range. Where its ends are no whole number of sizes apart, the last
    // item lies lower than one size below the end.
    #[tactic(auto, using(crate::proofs::Draws::next_back_below))]
    pub fn next_back_below(self) -> Draw
        ensures { draw_of result ≡ back_below (below self.start self.end (bytes_of self.size)) self.start self.end (bytes_of self.size) 0 }
    {
        let NumberRange { start, end, size } = self;
        if self.none_below() {
            return Draw {
                item: None,
                start,
                end,
            };
        }
        let left = end - size.bytes();
        Draw {
            item: Some(left - size.rest(end - start)),
            start,
            end: left,
        }
    }

    // From the front of the inclusive range; top is the topmost item of the size. A start past it is
    // drawn from as with any n.
    #[tactic(auto, using(crate::proofs::Draws::next_through))]
    pub fn next_through(self, top: u64) -> Draw
        ensures { draw_of result ≡ front_through (through self.start self.end (bytes_of self.size)) top self.start self.end (bytes_of self.size) 0 }
    {
        let NumberRange { start, end, size } = self;
        if top < start {
            return self.front_through(top, 0);
        }
        if end < start {
            return Draw {
                item: None,
                start,
                end,
            };
        }
        let bytes = size.bytes();
        if top - start < bytes {
            return Draw {
                item: Some(start),
                start: top,
                end: top.saturating_sub(bytes),
            };
        }
        Draw {
            item: Some(start),
            start: start + bytes,
            end,
        }
    }

    // From the back of the inclusive range.
    #[tactic(auto, using(crate::proofs::Draws::next_back_through))]
    pub fn next_back_through(self) -> Draw
        ensures { draw_of result ≡ back_through (through self.start self.end (bytes_of self.size)) 0 self.start self.end (bytes_of self.size) 0 }
    {
        let NumberRange { start, end, size } = self;
        if end < start {
            return Draw {
                item: None,
                start,
                end,
            };
        }
        let bytes = size.bytes();
        let last = end - size.rest(end - start);
        if end < bytes {
            return Draw {
                item: Some(last),
                start: start + bytes,
                end: 0,
            };
        }
        Draw {
            item: Some(last),
            start,
            end: end - bytes,
        }
    }
}
