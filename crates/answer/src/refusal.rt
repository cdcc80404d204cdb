// The refusals, by the numbers that the C interface and the programs give them. A number is never given to
// anything else.
ghost use Rattle.std.specs.Prelude.{◌≡◌};
ghost use Rattle.answer.specs.Answers.{number_of};

// 11, a draw of frames that would leave memory, is in the definitions and has no variant: no draw meets it.
#[derive(Clone, Copy, Debug, PartialEq, Eq)]
pub enum Refusal {
    // A virtual number that is not canonical.
    NotCanonical = 1,
    // A physical number of 2^52 or more.
    NotPhysical = 2,
    // A start that is no multiple of its page size.
    NotAligned = 3,
    // An alignment that is no power of two.
    NotPowerOfTwo = 4,
    // A result beyond 64 bits or below zero.
    Overflow = 5,
    // A virtual result that is not canonical.
    ResultNotCanonical = 6,
    // Two sizes that should be the same, or a size for which there is no such call.
    SizesDiffer = 7,
    // A physical result of 2^52 or more.
    ResultNotPhysical = 8,
    // An index of 512 or more, or an offset of 4,096 or more.
    IndexTooLarge = 9,
    // A draw of pages from a low start to a high end, into the gap or over it.
    DrawMeetsGap = 10,
    // A frame number whose frame would start at 2^52 or more.
    PfnTooLarge = 12,
    // An image file whose version, word count or length is wrong.
    WrongFile = 13,
    // A root table whose 512 words are not wholly in the image.
    RootOutside = 14,
}

impl Refusal {
    // The refusal's number.
    pub fn number(self) -> u8
        ensures { result ≡ number_of self }
    {
        self as u8
    }
}
