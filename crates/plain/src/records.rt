//! The counts and the records of a deck, put to a lent output.
ghost use Rattle.std.specs.Prelude.{◌≡◌, ◌∷◌, ◌+◌, ◌*◌, ◌≤◌, ◌<◌, length};
ghost use Rattle.std.proofs.lemmas.List.Edits.{sets};
ghost use Rattle.seed.specs.Pairs.{pair_of, pairs_of};
ghost use Rattle.plain.specs.Plain.{bytes16, bytes32, unsigned, seed_bytes, pair_bytes, plain_chain};
ghost use Rattle.plain.specs.inner.Writing.{next_of, pair_part};

use super::size::Size;

// A number of 16 bits, at `at`.
fn put_number(out: &mut [u8], at: usize, n: u16)
    requires { at + 2 ≤ length out.old }
    ensures { out.new ≡ sets out.old at (bytes16 n) }
{
    out[at..at + 2].copy_from_slice(&n.to_be_bytes());
}

/// The counts and the zero byte.
pub fn put_counts(out: &mut [u8], size: Size)
    requires seeds { size.seeds ≤ 64 }
    requires pairs { size.pairs ≤ 1024 }
    requires room { 4 ≤ length out.old }
    ensures { out.new ≡ sets out.old 0 (size.seeds ∷ 0 ∷ bytes16 size.pairs) }
{
    out[0] = size.seeds as u8;
    out[1] = 0;
    put_number(out, 2, size.pairs as u16);
}

// A score, in 32 bits.
fn put_score(out: &mut [u8], at: usize, score: i32)
    requires { at + 4 ≤ length out.old }
    ensures { out.new ≡ sets out.old at (bytes32 (unsigned score)) }
{
    out[at..at + 4].copy_from_slice(&score.to_be_bytes());
}

pub fn put_seed(out: &mut [u8], at: usize, score: i32, first: usize)
    requires first_fits { first < 65536 }
    requires room { at + 6 ≤ length out.old }
    ensures { out.new ≡ sets out.old at (seed_bytes (record { score = score; first = first })) }
{
    put_score(out, at, score);
    put_number(out, at + 4, first as u16);
}

fn next_of(k: usize, i: usize, n: usize) -> usize
    requires inside { i < n }
    requires few { k + n ≤ 1025 }
    ensures { result ≡ next_of k i n }
{
    if i + 1 < n { k + i + 1 } else { 0 }
}

fn put_pair(out: &mut [u8], at: usize, q: u8, t: u8, next: usize)
    requires next_fits { next < 65536 }
    requires room { at + 4 ≤ length out.old }
    ensures { out.new ≡ sets out.old at (pair_bytes (record { pair = pair_of q t; next = next })) }
{
    out[at] = q;
    out[at + 1] = t;
    put_number(out, at + 2, next as u16);
}

/// The pair records of a seed, the first of them number k; answers how many they are.
pub fn put_chain<'a>(out: &mut [u8], at: usize, k: usize, qs: &'a [u8], ts: &'a [u8]) -> usize
    requires as_many { length ts.now ≡ length qs.now }
    requires few { k + length qs.now ≤ 1025 }
    requires room { at + 4 * length qs.now ≤ length out.old }
    ensures count { result ≡ length qs.now }
    ensures wrote { out.new ≡ sets out.old at (pair_part (plain_chain k (pairs_of qs.now ts.now))) }
{
    let n = qs.len();
    for j in 0..n {
        put_pair(out, at + 4 * j, qs[j], ts[j], next_of(k, j, n));
    }
    n
}
