//! How the seeds of a list stand to one another, by masks.
ghost use Rattle.std.specs.Prelude.{◌≡◌, ◌^◌, ◌<◌, ◌≤◌, [], ◌∷◌, slice_index};
ghost use Rattle.seed.specs.Pairs.{pair_of, pairs_of};
ghost use Rattle.seed.specs.Seed.{last_pair};
ghost use Rattle.standing.specs.inner.Stands.{stand_of, masks_of, widened_by, masks_widened, alone, seed_by, Composed, Lawful, Related};

use super::Standing;
use super::order::Order;
use masks::{bit, highest, without};
use seed::stands::fits;
use seed::{Pair, last_pair, leaf_at};
use table::nodes_of;

/// Whether a seed stands left of another, and whether under it.
#[derive(Clone, Copy)]
pub struct Stand {
    pub left: bool,
    pub under: bool,
}

/// Which seeds stand left of another, and which under it.
#[derive(Clone, Copy)]
pub struct Masks {
    pub left: u64,
    pub under: u64,
}

/// How a seed whose last pair is s stands to the seed of uq and ut, whose last pair is u.
fn stands_to(lq: &[u8], lt: &[u8], uq: &[u8], ut: &[u8], u: Pair, s: Pair) -> Stand
    requires { u ≡ last_pair (pairs_of uq.now ut.now) }
    ensures { result ≡ stand_of lq.now lt.now (s ∷ []) (pairs_of uq.now ut.now) }
{
    if (s.q as usize) < leaf_at(lq, u.q as usize) {
        return Stand {
            left: (s.t as usize) < leaf_at(lt, u.t as usize),
            under: false,
        };
    }
    Stand {
        left: false,
        under: fits(lq, lt, uq, ut, s.q as usize, s.t as usize),
    }
}

/// The mask, if it is on, with k and with the numbers of another mask.
fn widened(mask: u64, on: bool, k: usize, more: u64) -> u64
    requires { k < 64 }
    ensures { result ≡ widened_by mask on k more }
{
    if on { mask | bit(k) | more } else { mask }
}

/// The last pair of the seed at place k.
fn last_in(rq: &[u8; 64], rt: &[u8; 64], k: usize) -> Pair
    requires { k < 64 }
    ensures { result ≡ pair_of (slice_index rq.now k) (slice_index rt.now k) }
{
    Pair { q: rq[k], t: rt[k] }
}

/// The masks with the seed at place k, as it stands, and with those that its own masks have: what is under a seed stands as that seed does, and
/// what is left of one that stands left is left too.
fn with_seed(m: Masks, stand: Stand, k: usize, lefts: &[u64; 64], unders: &[u64; 64]) -> Masks
    requires { k < 64 }
    ensures { result ≡ masks_widened m stand k (slice_index lefts.now k) (slice_index unders.now k) }
{
    let before = lefts[k];
    let below = unders[k];
    Masks {
        left: widened(m.left, stand.left, k, before | below),
        under: widened(m.under, stand.under, k, below),
    }
}

/// How the seeds before place y stand to the seed of uq and ut, which is there. The last pairs of those
/// before y are in rq and rt, and their masks in lefts and unders: what a seed that is looked at tells of is not looked at.
fn masks_at(
    lq: &[u8],
    lt: &[u8],
    uq: &[u8],
    ut: &[u8],
    rq: &[u8; 64],
    rt: &[u8; 64],
    lefts: &[u64; 64],
    unders: &[u64; 64],
    y: usize,
) -> Masks
    requires place { y < 64 }
    requires composed { Composed lq.now lt.now (alone rq.now rt.now) (pairs_of uq.now ut.now) lefts.now unders.now y }
    ensures { result ≡ masks_of lq.now lt.now (alone rq.now rt.now) (pairs_of uq.now ut.now) y }
{
    let u = last_pair(uq, ut);
    let mut masks = Masks { left: 0, under: 0 };
    let mut rest = bit(y) - 1;
    // What is taken off hangs on the masks so far, so this is no `for`.
    while rest != 0 {
        let k = highest(rest);
        let stand = stands_to(lq, lt, uq, ut, u, last_in(rq, rt, k));
        masks = with_seed(masks, stand, k, lefts, unders);
        rest = without(rest, bit(k) | masks.left | masks.under);
    }
    masks
}

/// The seeds of a list with the masks of each.
pub fn relate<'a>(
    lq: &[u8],
    lt: &[u8],
    qs: &'a [u8],
    ts: &'a [u8],
    bounds: &'a [u16],
    order: Order,
) -> Standing
    requires few { order.count ≤ 64 }
    requires lawful { Lawful lq.now lt.now (seed_by qs.now ts.now bounds.now order.numbers) order.count }
    ensures related { Related lq.now lt.now (seed_by qs.now ts.now bounds.now order.numbers) order.count result.lefts result.unders }
    ensures count { result.count ≡ order.count }
    ensures numbers { result.numbers ≡ order.numbers }
{
    let mut rq = [0u8; 64];
    let mut rt = [0u8; 64];
    let mut lefts = [0u64; 64];
    let mut unders = [0u64; 64];
    for y in 0..order.count {
        let i = order.numbers[y] as usize;
        let uq = nodes_of(qs, bounds, i);
        let ut = nodes_of(ts, bounds, i);
        let m = masks_at(lq, lt, uq, ut, &rq, &rt, &lefts, &unders, y);
        let u = last_pair(uq, ut);
        rq[y] = u.q;
        rt[y] = u.t;
        lefts[y] = m.left;
        unders[y] = m.under;
    }
    let numbers = order.numbers;
    Standing {
        count: order.count,
        numbers,
        lefts,
        unders,
    }
}
