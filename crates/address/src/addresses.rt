// A space of addresses: the virtual ones of a width, or the physical ones.
ghost use Rattle.std.specs.Prelude.{◌≡◌, ◌≢◌, ◌<◌, ◌^◌, ℕ, true};
ghost use Rattle.answer.specs.Outcome.{gives, unless};
ghost use Rattle.answer.specs.Answers.{u64_of, bool_of, number_of};
ghost use Rattle.laws.specs.Address as laws;
ghost use Rattle.laws.specs.Address.{address, resulting, is_null, is_aligned, plus, minus, plus_signed, distance};

use align::is_aligned;
use answer::Refusal;

pub trait Addresses: Copy {
    // Which numbers are addresses, the refusals, and where an address is among the others.
    ghost space: { Self → laws.Addresses };

    // Whether the number is an address.
    fn holds(self, addr: u64) -> bool
        ensures { result ≡ (space self).holds addr };

    // What refuses an argument that is no address, and what a result that is none.
    fn argument_refusal(self) -> Refusal
        ensures { number_of result ≡ (space self).argument };

    fn result_refusal(self) -> Refusal
        ensures { number_of result ≡ (space self).result };

    // How many addresses are below this one: by it ranges are counted, so without the gap.
    fn position(self, addr: u64) -> u64
        ensures { result ≡ (space self).position addr };

    // A law: what refuses an argument is no 0, which stands for no refusal.
    ghost numbered: { (s : Self) → (space s).argument ≢ 0 };

    // A law: there are so few addresses that the bytes of a range fit 64 bits.
    ghost positions_fit: { (s : Self) (a : ℕ) → (space s).holds a ≡ true → (space s).position a < 2 ^ 63 };

    // The number, where it is an address.
    final fn tested(self, addr: u64, refusal: Refusal) -> Result<u64, Refusal>
        ensures { u64_of result ≡ unless (number_of refusal) ((space self).holds addr) (gives addr) }
    {
        if self.holds(addr) {
            Ok(addr)
        } else {
            Err(refusal)
        }
    }

    // The number of an address handed in; refused if it is none.
    final fn argument(self, addr: u64) -> Result<u64, Refusal>
        ensures { u64_of result ≡ address (space self) addr }
    {
        self.tested(addr, self.argument_refusal())
    }

    // A number that a call comes to; refused if it is no address.
    final fn outcome(self, addr: u64) -> Result<u64, Refusal>
        ensures { u64_of result ≡ resulting (space self) addr }
    {
        self.tested(addr, self.result_refusal())
    }

    // Whether the address is 0.
    final fn is_null(self, addr: u64) -> Result<bool, Refusal>
        ensures { bool_of result ≡ is_null (space self) addr }
    {
        Ok(self.argument(addr)? == 0)
    }

    // Whether the address is a multiple of the alignment; 4 if that is no power of two.
    final fn is_aligned(self, addr: u64, align: u64) -> Result<bool, Refusal>
        ensures { bool_of result ≡ is_aligned (space self) addr align }
    {
        is_aligned(self.argument(addr)?, align)
    }

    // The address count bytes on, by the numbers; 5 beyond 64 bits. `minus` differs in the operation alone: one
    // function of both would take that with its contract, and read no plainer.
    final fn plus(self, addr: u64, count: u64) -> Result<u64, Refusal>
        ensures { u64_of result ≡ plus (space self) addr count }
    {
        let sum = self
            .argument(addr)?
            .checked_add(count)
            .ok_or(Refusal::Overflow)?;
        self.outcome(sum)
    }

    // The address count bytes back, by the numbers; 5 below zero.
    final fn minus(self, addr: u64, count: u64) -> Result<u64, Refusal>
        ensures { u64_of result ≡ minus (space self) addr count }
    {
        let difference = self
            .argument(addr)?
            .checked_sub(count)
            .ok_or(Refusal::Overflow)?;
        self.outcome(difference)
    }

    // The exact sum of address and displacement; 5 below zero or beyond 64 bits. In 128 bits it is one addition,
    // where `checked_add_signed` branches on the sign.
    final fn plus_signed(self, addr: u64, displacement: i32) -> Result<u64, Refusal>
        ensures { u64_of result ≡ plus_signed (space self) addr displacement }
    {
        let sum = i128::from(self.argument(addr)?) + i128::from(displacement);
        let sum = u64::try_from(sum).map_err(|_| Refusal::Overflow)?;
        self.outcome(sum)
    }

    // How far addr is above other, by their numbers; 5 if it is below.
    final fn distance(self, addr: u64, other: u64) -> Result<u64, Refusal>
        ensures { u64_of result ≡ distance (space self) addr other }
    {
        let addr = self.argument(addr)?;
        let other = self.argument(other)?;
        addr.checked_sub(other).ok_or(Refusal::Overflow)
    }
}
