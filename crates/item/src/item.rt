// Pages and frames by their numbers, in the virtual addresses of a width or in the physical ones.
ghost use Rattle.std.specs.Prelude.{◌≡◌};
ghost use Rattle.answer.specs.Answers.{outcome_of, refusal_of, u64_of};
ghost use Rattle.table.specs.Level.{bytes_of};
ghost use Rattle.laws.specs.Item.{item_refusal, items_refusal, from_start, containing, start_of, size_of, plus_item, minus_item, distance_item};
ghost use Rattle.item.specs.Items.{item_of};

use address::Addresses;
use answer::Refusal;
use table::PageSize;

#[derive(Clone, Copy, Debug, PartialEq, Eq)]
pub struct Item {
    pub start: u64,
    pub size: PageSize,
}

// Refuses an item handed in: if its start is no address, then by 3.
#[tactic(auto, using(std::proofs::lemmas::Bool::Decides::nat_tests), unfolding(laws::specs::Item::item_refusal))]
pub fn check<S: Addresses>(space: S, item: Item) -> Result<(), Refusal>
    ensures { refusal_of result ≡ item_refusal (S.space space) item.start (bytes_of item.size) }
{
    space.argument(item.start)?;
    if item.size.rest(item.start) != 0 {
        return Err(Refusal::NotAligned);
    }
    Ok(())
}

// Refuses two items handed in: the first, the second, then 7.
#[tactic(auto, using(crate::proofs::Checked::first_number, std::proofs::lemmas::Bool::Decides::nat_tests), unfolding(laws::specs::Item::items_refusal))]
pub fn check_both<S: Addresses>(space: S, item: Item, other: Item) -> Result<(), Refusal>
    ensures { refusal_of result ≡ items_refusal (S.space space) item.start (bytes_of item.size) other.start (bytes_of other.size) }
{
    check(space, item)?;
    check(space, other)?;
    if item.size != other.size {
        return Err(Refusal::SizesDiffer);
    }
    Ok(())
}

// The item with this start.
#[tactic(auto, using(answer::proofs::Refused::refused_number))]
pub fn from_start<S: Addresses>(space: S, start: u64, size: PageSize) -> Result<Item, Refusal>
    ensures { outcome_of item_of result ≡ from_start (S.space space) start (bytes_of size) }
{
    let item = Item { start, size };
    check(space, item)?;
    Ok(item)
}

// The item that an address is in.
#[tactic(auto, unfolding(laws::specs::Align::down))]
pub fn containing<S: Addresses>(space: S, addr: u64, size: PageSize) -> Result<Item, Refusal>
    ensures { outcome_of item_of result ≡ containing (S.space space) addr (bytes_of size) }
{
    let addr = space.argument(addr)?;
    Ok(Item {
        start: addr - size.rest(addr),
        size,
    })
}

#[tactic(auto, using(answer::proofs::Refused::refused_number))]
pub fn start_of<S: Addresses>(space: S, item: Item) -> Result<u64, Refusal>
    ensures { u64_of result ≡ start_of (S.space space) item.start (bytes_of item.size) }
{
    check(space, item)?;
    Ok(item.start)
}

#[tactic(auto, using(answer::proofs::Refused::refused_number))]
pub fn size_of<S: Addresses>(space: S, item: Item) -> Result<u64, Refusal>
    ensures { u64_of result ≡ size_of (S.space space) item.start (bytes_of item.size) }
{
    check(space, item)?;
    Ok(item.size.bytes())
}

// The item count items on, by the numbers; 5 beyond 64 bits.
#[tactic(auto, using(answer::proofs::Refused::refused_number))]
pub fn plus<S: Addresses>(space: S, item: Item, count: u64) -> Result<Item, Refusal>
    ensures { outcome_of item_of result ≡ plus_item (S.space space) item.start (bytes_of item.size) count }
{
    check(space, item)?;
    let sum = item
        .size
        .checked_bytes(count)
        .and_then(|bytes| item.start.checked_add(bytes))
        .ok_or(Refusal::Overflow)?;
    Ok(Item {
        start: space.outcome(sum)?,
        size: item.size,
    })
}

// The item count items back, by the numbers; 5 below zero.
#[tactic(auto, using(answer::proofs::Refused::refused_number))]
pub fn minus<S: Addresses>(space: S, item: Item, count: u64) -> Result<Item, Refusal>
    ensures { outcome_of item_of result ≡ minus_item (S.space space) item.start (bytes_of item.size) count }
{
    check(space, item)?;
    let difference = item
        .size
        .checked_bytes(count)
        .and_then(|bytes| item.start.checked_sub(bytes))
        .ok_or(Refusal::Overflow)?;
    Ok(Item {
        start: space.outcome(difference)?,
        size: item.size,
    })
}

// How many items lie between, by their numbers; 7 if the sizes differ, 5 below zero.
#[tactic(auto, using(answer::proofs::Refused::refused_number))]
pub fn distance<S: Addresses>(space: S, item: Item, other: Item) -> Result<u64, Refusal>
    ensures { u64_of result ≡ distance_item (S.space space) item.start (bytes_of item.size) other.start (bytes_of other.size) }
{
    check_both(space, item, other)?;
    let bytes = item
        .start
        .checked_sub(other.start)
        .ok_or(Refusal::Overflow)?;
    Ok(other.size.count(bytes))
}
