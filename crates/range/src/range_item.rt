// What ranges are made of: pages and frames.
ghost use Rattle.std.specs.Prelude.{◌≡◌, ℕ};
ghost use Rattle.answer.specs.Answers.{outcome_of};
ghost use Rattle.laws.specs.Address as laws;
ghost use Rattle.laws.specs.Kind.{Kind, GuardedDraw, guarded};
ghost use Rattle.table.specs.Level.{bytes_of};
ghost use Rattle.draw.specs.Draws.{draw_of};
ghost use Rattle.item.specs.Items.{item_of};

use address::Addresses;
use answer::Refusal;
use draw::Draw;
use item::Item;

pub trait RangeItem: Copy {
    type Space: Addresses;

    // The addresses, what an item is by its numbers, and its draws on these: that of an exclusive range
    // from the front and from the back, then of an inclusive one.
    ghost addresses: { laws.Addresses };

    ghost kind: { Kind Self };

    ghost nth_below: { ℕ → ℕ → ℕ → ℕ → ℕ → GuardedDraw };

    ghost nth_back_below: { ℕ → ℕ → ℕ → ℕ → ℕ → GuardedDraw };

    ghost nth_through: { ℕ → ℕ → ℕ → ℕ → ℕ → GuardedDraw };

    ghost nth_back_through: { ℕ → ℕ → ℕ → ℕ → ℕ → GuardedDraw };

    fn space() -> Self::Space
        ensures { Self.Space.space result ≡ addresses };

    fn item(self) -> Item
        ensures { item_of result ≡ kind.item self };

    // The item of the same size that starts at a number.
    fn placed(self, start: u64) -> Self
        ensures { result ≡ kind.placed self start };

    // Each of the eight is another draw on numbers; a table of them would be no plainer.
    fn draw_nth_below(start: Item, end: Item, n: u64) -> Result<Draw, Refusal>
        ensures { outcome_of draw_of result ≡ guarded (nth_below start.start (bytes_of start.size) end.start (bytes_of end.size) n) };

    fn draw_nth_back_below(start: Item, end: Item, n: u64) -> Result<Draw, Refusal>
        ensures { outcome_of draw_of result ≡ guarded (nth_back_below start.start (bytes_of start.size) end.start (bytes_of end.size) n) };

    fn draw_nth_through(start: Item, end: Item, n: u64) -> Result<Draw, Refusal>
        ensures { outcome_of draw_of result ≡ guarded (nth_through start.start (bytes_of start.size) end.start (bytes_of end.size) n) };

    fn draw_nth_back_through(start: Item, end: Item, n: u64) -> Result<Draw, Refusal>
        ensures { outcome_of draw_of result ≡ guarded (nth_back_through start.start (bytes_of start.size) end.start (bytes_of end.size) n) };

    // The same with n = 0, which need no length and so no division.
    fn draw_next_below(start: Item, end: Item) -> Result<Draw, Refusal>
        ensures { outcome_of draw_of result ≡ guarded (nth_below start.start (bytes_of start.size) end.start (bytes_of end.size) 0) };

    fn draw_next_back_below(start: Item, end: Item) -> Result<Draw, Refusal>
        ensures { outcome_of draw_of result ≡ guarded (nth_back_below start.start (bytes_of start.size) end.start (bytes_of end.size) 0) };

    fn draw_next_through(start: Item, end: Item) -> Result<Draw, Refusal>
        ensures { outcome_of draw_of result ≡ guarded (nth_through start.start (bytes_of start.size) end.start (bytes_of end.size) 0) };

    fn draw_next_back_through(start: Item, end: Item) -> Result<Draw, Refusal>
        ensures { outcome_of draw_of result ≡ guarded (nth_back_through start.start (bytes_of start.size) end.start (bytes_of end.size) 0) };
}
