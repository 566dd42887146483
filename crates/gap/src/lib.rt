//! The gaps of a seed. Each node of a tree is given the number of the gap that it lies in, by a scan of the seed's nodes in that tree: then a pair of
//! nodes fits the seed exactly if their gaps are the same and not 0.
#![tactic(auto)]

ghost use Rattle.std.specs.Prelude.{◌≡◌, ◌≤◌, length};
ghost use Rattle.seed.specs.Pairs.{pairs_of, Held};
ghost use Rattle.gap.specs.GapNumbers as gaps;

use seed::{pair_count, side};
use tree::Tree;

/// The gaps of the nodes of Q and of T, by their numbers; 0 behind the last node.
#[derive(Clone, Copy)]
pub struct Gaps {
    pub q: [usize; 256],
    pub t: [usize; 256],
}

/// What a node on the left or on the right of another counts.
#[tactic(auto, unfolding(crate::specs::GapNumbers::weight))]
fn weight(side: u8) -> usize
    ensures { result ≡ gaps.weight side }
{
    if side == 0 { 256 } else { 1 }
}

/// The gap of node i among the nodes of a seed, which rise: how many lie left of it, and how many right of it before the nearest above it.
fn gap(l: &[u8], nodes: &[u8], i: usize) -> usize
    requires { length nodes.now ≤ 256 }
    ensures { result ≡ gaps.gap l.now nodes.now i }
{
    let mut gap = 1;
    for &node in nodes {
        let side = side(l, node as usize, i);
        if side == 3 {
            return 0;
        }
        if side == 2 {
            return gap;
        }
        gap += weight(side);
    }
    0
}

/// The gaps of all nodes of a tree.
fn gaps_in(l: &[u8], nodes: &[u8]) -> [usize; 256]
    requires leaves_few { length l.now ≤ 256 }
    requires nodes_few { length nodes.now ≤ 256 }
    ensures { result ≡ gaps.filled (gaps.gap l.now nodes.now) (length l.now) }
{
    let mut all = [0usize; 256];
    for i in 0..l.len() {
        all[i] = gap(l, nodes, i);
    }
    all
}

/// The gaps of the seed of these q and t, as far as both lists go.
pub fn gaps_of<'a>(q: Tree, t: Tree, qs: &'a [u8], ts: &'a [u8]) -> Gaps
    requires { Held q t (pairs_of qs.now ts.now) }
    ensures { result ≡ gaps.gaps_in q t (pairs_of qs.now ts.now) }
{
    let count = pair_count(qs, ts);
    Gaps {
        q: gaps_in(q.leaves(), &qs[..count]),
        t: gaps_in(t.leaves(), &ts[..count]),
    }
}
