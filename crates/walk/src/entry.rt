// Fields of an entry's word.
ghost use Rattle.std.specs.Prelude.{◌≡◌, ◌/◌, ◌%◌, ◌^◌};
ghost use Rattle.paging.specs.Entry.{set, table_address};

// A processor that reserves no bits of its own.
pub const NO_MASK: u64 = 0;

// Whether an entry is present.
pub fn is_present(word: u64) -> bool
    ensures { result ≡ set 0 word }
{
    word & 1 == 1
}

// Whether bit 7 is set: in an entry of level 2 or 3 it says that the page is large.
pub(crate) fn is_large(word: u64) -> bool
    ensures { result ≡ set 7 word }
{
    (word >> 7) & 1 == 1
}

// The frame number in bits 12 to 51.
pub fn frame_in(word: u64) -> u64
    ensures { result ≡ word / 2 ^ 12 % 2 ^ 40 }
{
    (word >> 12) & 0xff_ffff_ffff
}

// The address in bits 12 to 51.
pub(crate) fn address_in(word: u64) -> u64
    ensures { result ≡ table_address word }
{
    word & 0xf_ffff_ffff_f000
}
