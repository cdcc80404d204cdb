// A byte for each 512 words, in it a bit for each level; level 9 would have that of level 1 again, and so on. What has no byte is not remembered.
// The bytes are lent, and plain ones: C lends them to `list`, and there is no heap.
ghost use Rattle.std.specs.Prelude.{◌≡◌, length, replicate};
ghost use Rattle.paging.specs.EmptyTables.{has_byte, marked, marking, marking_whole};

use walk::{TABLE_WORDS, within_span};

// Whether the table at a place has a byte: those of a list of segments lie at multiples of 512 words.
fn has_byte(bytes: &[u8], place: usize) -> bool
    ensures { result ≡ has_byte bytes.now place }
{
    place % TABLE_WORDS == 0 && place / TABLE_WORDS < bytes.len()
}

// Whether the table at a place is known to hold nothing as one of level below + 1.
pub fn is_empty(bytes: &[u8], place: usize, below: u64) -> bool
    ensures { result ≡ marked bytes.now place below }
{
    has_byte(bytes, place) && (bytes[place / TABLE_WORDS] >> (below % 8)) & 1 == 1
}

// Remembers that it holds nothing.
fn remember(bytes: &mut [u8], place: usize, below: u64)
    ensures { bytes.new ≡ marking bytes.old place below }
{
    if has_byte(bytes, place) {
        bytes[place / TABLE_WORDS] |= 1 << (below % 8);
    }
}

// Remembers a table that was gone through from a page on, if that is all of it and nothing was found.
pub fn remember_whole(bytes: &mut [u8], nothing: bool, place: usize, below: u64, from: u64)
    ensures { bytes.new ≡ marking_whole bytes.old nothing place below from }
{
    if nothing && within_span(from, below % 8 + 1) == 0 {
        remember(bytes, place, below);
    }
}

// Forgets what the bytes have. A byte is written only if it is not zero: of a plain loop, and of `fill`, the compiler makes a call of memset, and the library calls nothing.
pub fn forget(bytes: &mut [u8])
    ensures { bytes.new ≡ replicate (length bytes.old) 0 }
{
    for byte in bytes.iter_mut() {
        if *byte != 0 {
            *byte = 0;
        }
    }
}
