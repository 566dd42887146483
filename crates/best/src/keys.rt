//! Stored keys, and the banks of the scratch that hold them: 64 totals and 64 masks each.
ghost use Rattle.std.specs.Prelude.{◌≡◌, ◌≢◌, ◌+◌, ◌-◌, ◌^◌, ◌≤◌, ◌<◌, length, set};
ghost use Rattle.optimum.specs.Key.{empty, better, ◌⊕◌, in_mask};
ghost use Rattle.optimum.specs.inner.Table.{stored};
ghost use Rattle.seed.specs.Tab.{tab};
ghost use Rattle.best.specs.inner.Scratch.{Lowest, key_at};

/// The total of a chain and the mask of its numbers.
#[derive(Clone, Copy)]
pub struct Stored {
    pub total: u64,
    pub mask: u64,
}

/// The better of two keys: the greater total, or of equal totals the smaller mask. By branches, since one condition is compiled to more steps for each
/// pair of seeds.
pub fn better_of(a: Stored, b: Stored) -> Stored
    ensures { stored result.total result.mask ≡ better (stored a.total a.mask) (stored b.total b.mask) }
{
    if a.total < b.total {
        b
    } else if b.total < a.total {
        a
    } else if b.mask <= a.mask {
        b
    } else {
        a
    }
}

/// The key of two chains together.
pub fn joined(a: Stored, b: Stored) -> Stored
    requires total_fits { a.total + b.total < 2 ^ 64 }
    requires mask_fits { a.mask + b.mask < 2 ^ 64 }
    ensures { stored result.total result.mask ≡ stored a.total a.mask ⊕ stored b.total b.mask }
{
    Stored {
        total: a.total + b.total,
        mask: a.mask + b.mask,
    }
}

/// The key of a seed with the chain under it, or that of the empty chain if it is no better.
pub fn clipped(score: i32, bit: u64, under: Stored) -> Stored
    requires total_few { under.total ≤ 64000000 }
    requires mask_fits { bit + under.mask < 2 ^ 64 }
    ensures { stored result.total result.mask ≡ better empty (record { total = score; mask = bit } ⊕ stored under.total under.mask) }
{
    let sum = score as i64 + under.total as i64;
    if 0 < sum {
        return Stored {
            total: sum as u64,
            mask: bit + under.mask,
        };
    }
    Stored { total: 0, mask: 0 }
}

/// Whether a mask has a number.
pub fn has(mask: u64, i: usize) -> bool
    requires { i < 64 }
    ensures { result ≡ in_mask mask i }
{
    (mask >> i) % 2 == 1
}

/// The lowest number that a mask has.
pub fn lowest(mask: u64) -> usize
    requires { mask ≢ 0 }
    ensures { Lowest mask result }
{
    mask.trailing_zeros() as usize
}

/// The mask without k, its lowest number.
pub fn without_lowest(mask: u64, k: usize) -> u64
    requires some { mask ≢ 0 }
    requires lowest { Lowest mask k }
    ensures { result ≡ mask - 2 ^ k }
{
    mask & (mask - 1)
}

/// The key at place k of the bank that begins at base.
pub fn key_at(scratch: &[u64], base: usize, k: usize) -> Stored
    requires place { k < 64 }
    requires bank { base + 128 ≤ length scratch.now }
    ensures { stored result.total result.mask ≡ key_at scratch.now base k }
{
    Stored {
        total: scratch[base + k],
        mask: scratch[base + 64 + k],
    }
}

pub fn put(scratch: &mut [u64], base: usize, k: usize, key: Stored)
    requires place { k < 64 }
    requires bank { base + 128 ≤ length scratch.old }
    ensures { scratch.new ≡ set (set scratch.old (base + k) key.total) (base + 64 + k) key.mask }
{
    scratch[base + k] = key.total;
    scratch[base + 64 + k] = key.mask;
}

/// Whether a mask has each of 64 numbers.
pub fn unpacked(mask: u64) -> [bool; 64]
    ensures { result ≡ tab 64 (in_mask mask) }
{
    let mut chain = [false; 64];
    for i in 0..64 {
        chain[i] = has(mask, i);
    }
    chain
}
