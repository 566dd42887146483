//! Masks: sets of the numbers 0 to 63, as the bits of a u64.
#![tactic(auto)]

ghost use Rattle.std.specs.Prelude.{◌≡◌, ◌^◌, ◌<◌, ◌≤◌};
ghost use Rattle.masks.specs.Masks.{Highest, minus};

/// The mask of one number, and the empty one of a number that no mask can have.
pub fn bit(number: usize) -> u64
    ensures one { number < 64 → result ≡ 2 ^ number }
    ensures none { 64 ≤ number → result ≡ 0 }
{
    if number < 64 { 1 << number } else { 0 }
}

/// The highest number that a mask has, and 0 if it has none.
pub fn highest(mask: u64) -> usize
    ensures { Highest mask result }
{
    if mask == 0 {
        return 0;
    }
    63 - mask.leading_zeros() as usize
}

/// The mask without the numbers of another.
pub fn without(mask: u64, other: u64) -> u64
    ensures { result ≡ minus mask other }
{
    mask ^ (mask & other)
}
