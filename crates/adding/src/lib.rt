//! A list of pairs judged as the next seed of a table, and the table with it.
#![tactic(auto)]

mod appending;
mod limits;

ghost use Rattle.std.specs.Prelude.{◌≡◌};
ghost use Rattle.answer.specs.Refusal.{result_of};
ghost use Rattle.seed.specs.Pairs.{pairs_of};
ghost use Rattle.table.specs.Table.{rows_of, Kept};
ghost use Rattle.adding.specs.Adding.{next_answer, Grows};

use answer::Refusal;
use appending::appended;
use judge::judge;
use limits::judge_limits;
use seed::pair_count;
use table::Table;
use tree::Tree;

/// Judges by the limits first, and then as a seed of the two trees.
fn judge_next(
    q: Tree,
    t: Tree,
    table: Table,
    qs: &[u8],
    ts: &[u8],
    score: i32,
) -> Result<(), Refusal>
    requires { Kept q t table }
    ensures { result ≡ result_of (next_answer q t (rows_of table) (pairs_of qs.now ts.now) score) tt }
{
    judge_limits(table.seeds, table.pairs, pair_count(qs, ts), score)?;
    judge(q, t, qs, ts, table.seeds + 1)
}

/// The table with the seed of these q and t, as far as both lists go, behind the last, present and with this score.
pub fn with_seed(
    q: Tree,
    t: Tree,
    table: Table,
    qs: &[u8],
    ts: &[u8],
    score: i32,
) -> Result<Table, Refusal>
    requires { Kept q t table }
    ensures { Grows q t table (pairs_of qs.now ts.now) score result }
{
    judge_next(q, t, table, qs, ts, score)?;
    let count = pair_count(qs, ts);
    Ok(appended(table, &qs[..count], &ts[..count], score))
}
