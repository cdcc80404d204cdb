// The sizes of pages and frames.
ghost use Rattle.std.specs.Prelude.{◌≡◌, ◌*◌, ◌/◌, ◌%◌, ◌^◌, ◌<◌, SomeIff};
ghost use Rattle.table.specs.Level.{power_of, bytes_of};

// The source's three types are one closed choice here, held in each page and frame.
#[derive(Clone, Copy, Debug, PartialEq, Eq)]
pub enum PageSize {
    Size4KiB,
    Size2MiB,
    Size1GiB,
}

impl PageSize {
    // The size as a power of two. A table of its own beside that of `bytes`: a shift from one to the other would be no
    // plainer than three constants.
    pub fn power(self) -> u32
        ensures { result ≡ power_of self }
    {
        match self {
            PageSize::Size4KiB => 12,
            PageSize::Size2MiB => 21,
            PageSize::Size1GiB => 30,
        }
    }

    // The size in bytes: the source's `SIZE`.
    pub fn bytes(self) -> u64
        ensures { result ≡ bytes_of self }
    {
        match self {
            PageSize::Size4KiB => 0x1000,
            PageSize::Size2MiB => 0x20_0000,
            PageSize::Size1GiB => 0x4000_0000,
        }
    }

    // What a number is past a multiple of the size.
    pub fn rest(self, n: u64) -> u64
        ensures { result ≡ n % bytes_of self }
    {
        n & (self.bytes() - 1)
    }

    // How many times the size fits into a number.
    pub fn count(self, n: u64) -> u64
        ensures { result ≡ n / bytes_of self }
    {
        n >> self.power()
    }

    // The bytes of so many pages of the size, if they are below 2^64: by a shift, where `checked_mul` would
    // divide.
    #[tactic(auto, using(crate::proofs::Sizes::past_count, crate::proofs::Sizes::within_count))]
    pub fn checked_bytes(self, count: u64) -> Option<u64>
        ensures { SomeIff result (count * bytes_of self < 2 ^ 64) (count * bytes_of self) }
    {
        if self.count(u64::MAX) < count {
            None
        } else {
            Some(count * self.bytes())
        }
    }
}
