// The tables of an image, whose words are lent in segments one after the other.
ghost use Rattle.std.specs.Prelude.{◌≡◌, length, [], ◌∷◌};
ghost use Rattle.paging.specs.Memory.{place_from, reaching};
ghost use Rattle.walk.specs.Place.{place_of};
ghost use Rattle.walk.specs.Segments.{segment_of, segments_of};

// A table's words.
pub const TABLE_WORDS: usize = 512;

// The physical address of its first word, and how many words it has.
#[derive(Clone, Copy, Debug, PartialEq, Eq)]
pub struct Segment {
    pub base: u64,
    pub words: u64,
}

impl Segment {
    // All words of an image, the first of which has the physical address base.
    pub fn whole(image: &[u64], base: u64) -> Segment
        ensures { segment_of result ≡ record { base = base; words = length image.now } }
    {
        Segment {
            base,
            words: image.len() as u64,
        }
    }

    // How many of its words are before the table at a physical address, if that is wholly in it. No truth value: of its two tests the compiler made one value at each level, and a
    // translation took 1.16 times the time.
    #[tactic(auto, using(crate::proofs::Segments::table_below, crate::proofs::Segments::table_past, crate::proofs::Segments::table_within))]
    fn words_before(self, table: u64) -> Option<u64>
        ensures { place_of result ≡ place_from 0 (segment_of self ∷ []) table }
    {
        let before = table.checked_sub(self.base)? / 8;
        if before + TABLE_WORDS as u64 <= self.words {
            Some(before)
        } else {
            None
        }
    }
}

// Where the table at a physical address begins in so many lent words, if it is wholly inside. Where the segments have more words than are lent, those that are count.
// No `Tables`, which has both: whoever has the number of words alone could not call it then, and a contract asks no more of callers than it did.
#[tactic(auto, using(crate::proofs::Segments::words_inside, crate::proofs::Segments::found_next, crate::proofs::Segments::found_behind, crate::proofs::Segments::none_behind))]
pub fn table_place(lent: u64, segments: &[Segment], table: u64) -> Option<usize>
    ensures { place_of result ≡ place_from 0 (reaching lent (segments_of segments.now)) table }
{
    let mut first = 0;
    for segment in segments {
        let reached = Segment {
            base: segment.base,
            words: segment.words.min(lent - first),
        };
        if let Some(before) = reached.words_before(table) {
            return Some((first + before) as usize);
        }
        first += reached.words;
    }
    None
}

// What a walk reads: the lent words of an image, the segments that they are, one after the other, and the bits of an entry that the processor reserves.
#[derive(Clone, Copy)]
pub struct Tables<'a> {
    pub words: &'a [u64],
    pub segments: &'a [Segment],
    pub reserved: u64,
}

impl<'a> Tables<'a> {
    // Where the table at a physical address begins in the words, if it is wholly inside.
    pub fn place(&self, table: u64) -> Option<usize>
        ensures { place_of result ≡ place_from 0 (reaching (length self.now.words.now) (segments_of self.now.segments.now)) table }
    {
        table_place(self.words.len() as u64, self.segments, table)
    }
}
