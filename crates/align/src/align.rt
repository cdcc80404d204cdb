// Alignment of plain numbers.
ghost use Rattle.std.specs.Prelude.{◌≡◌, true, ◌+◌, ◌%◌};
ghost use Rattle.answer.specs.Answers.{u64_of, bool_of};
ghost use Rattle.laws.specs.Align.{power_of_two, up, align_down, align_up, multiple_of};

use answer::Refusal;

// Whether just one bit of the alignment is set.
fn is_power_of_two(align: u64) -> bool
    ensures { result ≡ power_of_two align }
{
    u64::count_ones(align) == 1
}

// What addr is past the multiple below it.
fn rest(addr: u64, align: u64) -> u64
    requires { power_of_two align ≡ true }
    ensures { result ≡ addr % align }
{
    addr & (align - 1)
}

// What addr lacks to the multiple above it; 0 where it is one.
fn padding(addr: u64, align: u64) -> u64
    requires { power_of_two align ≡ true }
    ensures { addr + result ≡ up align addr }
{
    let past = rest(addr, align);
    if past == 0 { 0 } else { align - past }
}

// The greatest multiple of the alignment that is not above addr; 4 if it is no power of two.
pub fn align_down(addr: u64, align: u64) -> Result<u64, Refusal>
    ensures { u64_of result ≡ align_down addr align }
{
    if !is_power_of_two(align) {
        return Err(Refusal::NotPowerOfTwo);
    }
    Ok(addr - rest(addr, align))
}

// The least multiple of the alignment that is not below addr; 4 if it is no power of two, 5 if the
// multiple is 2^64.
pub fn align_up(addr: u64, align: u64) -> Result<u64, Refusal>
    ensures { u64_of result ≡ align_up addr align }
{
    if !is_power_of_two(align) {
        return Err(Refusal::NotPowerOfTwo);
    }
    addr.checked_add(padding(addr, align))
        .ok_or(Refusal::Overflow)
}

// Whether addr is a multiple of the alignment; 4 if that is no power of two.
pub fn is_aligned(addr: u64, align: u64) -> Result<bool, Refusal>
    ensures { bool_of result ≡ multiple_of addr align }
{
    if !is_power_of_two(align) {
        return Err(Refusal::NotPowerOfTwo);
    }
    Ok(rest(addr, align) == 0)
}
