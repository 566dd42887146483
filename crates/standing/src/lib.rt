//! How the present seeds of a table stand to one another.
#![tactic(auto)]

mod order;
mod stands;

ghost use Rattle.std.specs.Prelude.{◌≡◌, ◌≤◌, length, take};
ghost use Rattle.standing.specs.Standing.{Handed, StoodIn};

use order::ordered;
use stands::relate;
use tree::Tree;

/// The numbers of the present seeds, counted from 0, by rising q of the last pair and then by number, as many as count says; and for each the
/// masks of those before it that stand left of it and under it.
#[derive(Clone, Copy)]
pub struct Standing {
    pub count: usize,
    pub numbers: [u8; 64],
    pub lefts: [u64; 64],
    pub unders: [u64; 64],
}

/// How the present seeds of a table, which lies in these arrays, stand to one another.
pub fn stood<'a>(
    q: Tree,
    t: Tree,
    qs: &'a [u8],
    ts: &'a [u8],
    bounds: &'a [u16],
    present: &'a [bool; 64],
    seeds: usize,
) -> Standing
    requires { Handed q t qs.now ts.now bounds.now present.now seeds }
    ensures { StoodIn q t qs.now ts.now bounds.now present.now seeds result }
{
    let order = ordered(qs, bounds, present, seeds);
    let lq = q.leaves();
    let lt = t.leaves();
    relate(lq, lt, qs, ts, bounds, order)
}
