//! The best chain of a table's seeds, on a lent scratch.
#![tactic(auto)]

mod keys;
mod scratch;

ghost use Rattle.std.specs.Prelude.{◌≡◌, ltb};
ghost use Rattle.table.specs.Table.{table_of, Kept};
ghost use Rattle.best.specs.Best.{scratch_needed, Answered};

use answer::{Ground, Place, Refusal};
use keys::unpacked;
use scratch::solve;
use standing::stood;
use tree::Tree;

/// How many numbers the scratch must have.
pub const SCRATCH: usize = 256;

/// The total of the best chain, and for each seed number, counted from 0, whether the chain has it.
#[derive(Clone, Copy, Debug, PartialEq, Eq)]
pub struct Best {
    pub total: u64,
    pub chain: [bool; 64],
}

/// Whether a scratch of so many numbers is too short.
pub fn scratch_short(numbers: usize) -> bool
    ensures { result ≡ ltb numbers scratch_needed }
{
    numbers < SCRATCH
}

/// The best chain of the present ones of the seeds of a table, which lies in these arrays. All of an accepted scratch is zero afterwards.
pub fn best_chain<'a>(
    q: Tree,
    t: Tree,
    qs: &'a [u8],
    ts: &'a [u8],
    bounds: &'a [u16],
    scores: &'a [i32; 64],
    present: &'a [bool; 64],
    seeds: usize,
    scratch: &mut [u64],
) -> Result<Best, Refusal>
    requires { Kept q t (table_of qs.now ts.now bounds.now scores.now present.now seeds) }
    ensures { Answered q t (table_of qs.now ts.now bounds.now scores.now present.now seeds) scratch.old scratch.new result }
{
    if scratch_short(scratch.len()) {
        return Err(Ground::ScratchShort.at(Place::Nothing));
    }
    let standing = stood(q, t, qs, ts, bounds, present, seeds);
    let key = solve(
        scratch,
        &standing.numbers,
        &standing.lefts,
        &standing.unders,
        standing.count,
        scores,
    );
    scratch.fill(0);
    Ok(Best {
        total: key.total,
        chain: unpacked(key.mask),
    })
}
