// Ranges on plain numbers, and how many items they have.
ghost use Rattle.std.specs.Prelude.{◌≡◌};
ghost use Rattle.laws.specs.Run.{len_below, len_through};
ghost use Rattle.table.specs.Level.{bytes_of};

use table::PageSize;

// A range of items of one size, by the numbers of its start and its end. What is named for `below` takes the
// end as exclusive, what is named for `through` as inclusive. The two differ in how they count and in what a draw
// leaves, and in no type or constant: one function of both would branch wherever they do, and be no plainer.
#[derive(Clone, Copy, Debug, PartialEq, Eq)]
pub struct NumberRange {
    pub start: u64,
    pub end: u64,
    pub size: PageSize,
}

impl NumberRange {
    // How many items lie from start on, below end.
    #[tactic(auto, unfolding(laws::specs::Run::len_below))]
    pub fn len_below(self) -> u64
        ensures { result ≡ len_below self.start self.end (bytes_of self.size) }
    {
        self.size.count(self.end.saturating_sub(self.start))
    }

    // How many items lie from start on, up to end.
    #[tactic(auto, using(std::proofs::lemmas::Bool::Decides::nat_tests, laws::proofs::Run::half), unfolding(laws::specs::Run::len_through))]
    pub fn len_through(self) -> u64
        ensures { result ≡ len_through self.start self.end (bytes_of self.size) }
    {
        if self.end < self.start {
            return 0;
        }
        self.size.count(self.end - self.start) + 1
    }
}
