//! The table on the scratch by which the best chain is found: for each item the best chain under it, and a row of the items left of one another.
ghost use Rattle.std.specs.Prelude.{◌≡◌, true, ◌≤◌, length};
ghost use Rattle.optimum.specs.Key.{in_mask};
ghost use Rattle.optimum.specs.inner.Table.{best_among, max_below, stored};
ghost use Rattle.best.specs.Best.{scratch_needed};
ghost use Rattle.best.specs.inner.Scratch as spec;

use super::keys::{Stored, better_of, clipped, joined, key_at, lowest, put, without_lowest};
use masks::{bit, highest, without};

/// Where the bank begins that has each item's key with the best chain under it.
const ITEMS: usize = 0;

/// Where the bank of the row at hand begins.
const ROWS: usize = 128;

/// The mask that has every item.
const ALL: u64 = u64::MAX;

/// The best key of the row at hand among the items that a mask has, and of the empty chain. No item is better than one that it is left of, so
/// that what is left of an item looked at is not looked at.
fn best_in(scratch: &[u64], lefts: &[u64], mask: u64) -> Stored
    requires { spec.RowRises scratch.now lefts.now mask }
    ensures { stored result.total result.mask ≡ max_below (in_mask mask) (spec.key_at scratch.now spec.row_bank) 64 }
{
    let mut best = Stored { total: 0, mask: 0 };
    let mut rest = mask;
    // What is taken off hangs on what stands left, so this is no `for`.
    while rest != 0 {
        let k = highest(rest);
        let key = key_at(scratch, ROWS, k);
        best = better_of(best, key);
        rest = without(rest, bit(k) | lefts[k]);
    }
    best
}

/// The entry of item k in a row of items that a mask has.
fn entry(scratch: &[u64], lefts: &[u64], row: u64, k: usize) -> Stored
    requires { spec.EntryRoom scratch.now lefts.now row k }
    ensures { stored result.total result.mask ≡ spec.entry_of scratch.now lefts.now row k }
{
    let best = best_in(scratch, lefts, row & lefts[k]);
    let key = key_at(scratch, ITEMS, k);
    joined(key, best)
}

/// Fills the row of the first n items that a mask has, and answers its best key, or that of the empty chain.
fn fill_row(scratch: &mut [u64], lefts: &[u64], row: u64, n: usize) -> Stored
    requires { spec.RowRoom scratch.old lefts.now row n }
    ensures { spec.RowFilled scratch.old lefts.now row n scratch.new (stored result.total result.mask) }
{
    let mut best = Stored { total: 0, mask: 0 };
    let mut rest = row;
    // The numbers of a mask are no range: each step takes off the lowest.
    while rest != 0 {
        let k = lowest(rest);
        if n <= k {
            return best;
        }
        let key = entry(scratch, lefts, row, k);
        put(scratch, ROWS, k, key);
        best = better_of(best, key);
        rest = without_lowest(rest, k);
    }
    best
}

/// Fills in the key of each item with the best chain under it.
fn fill_items<'a>(
    scratch: &mut [u64],
    numbers: &'a [u8; 64],
    lefts: &'a [u64; 64],
    unders: &'a [u64; 64],
    count: usize,
    scores: &[i32; 64],
)
    requires posed { spec.Posed (spec.standing_of count numbers.now lefts.now unders.now) scores.now }
    requires room { scratch_needed ≤ length scratch.old }
    ensures { spec.ItemsFilled (spec.items_of (spec.standing_of count numbers.now lefts.now unders.now) scores.now) scratch.old count scratch.new }
{
    for y in 0..count {
        let under = fill_row(scratch, lefts, unders[y], y);
        let number = numbers[y] as usize;
        let key = clipped(scores[number], bit(number), under);
        put(scratch, ITEMS, y, key);
    }
}

/// The best key of a chain of the items.
pub fn solve<'a>(
    scratch: &mut [u64],
    numbers: &'a [u8; 64],
    lefts: &'a [u64; 64],
    unders: &'a [u64; 64],
    count: usize,
    scores: &[i32; 64],
) -> Stored
    requires posed { spec.Posed (spec.standing_of count numbers.now lefts.now unders.now) scores.now }
    requires room { scratch_needed ≤ length scratch.old }
    ensures { stored result.total result.mask ≡ best_among (spec.items_of (spec.standing_of count numbers.now lefts.now unders.now) scores.now) (λ x. true) count }
{
    fill_items(scratch, numbers, lefts, unders, count, scores);
    fill_row(scratch, lefts, ALL, count)
}
