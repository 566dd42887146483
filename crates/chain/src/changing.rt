//! The sessions that openings hand over, and the changes of a session: an accepted one moves its table and its change count, a refused one nothing.
ghost use Rattle.std.specs.Prelude.{◌≡◌, ◌<◌, ◌+◌, length, IfOk};
ghost use Rattle.answer.specs.Refusal.{answer_in};
ghost use Rattle.seed.specs.Pairs.{pairs_of};
ghost use Rattle.table.specs.Table.{rows_of, Kept};
ghost use Rattle.chain.specs.Opening.{start_with};
ghost use Rattle.chain.specs.State as state;
ghost use Rattle.chain.specs.Acts.{add, moving};
ghost use Rattle.chain.specs.View.{view, Sound, Does};

use super::Session;
use super::judging::{judge_count, judge_move};
use adding::with_seed;
use answer::Refusal;
use table::{Table, moved};
use tree::Tree;

/// The session on two trees with the seeds of a table, which count as adds.
pub fn session_on(q: Tree, t: Tree, table: Table) -> Session
    requires { Kept q t table }
    ensures state { view result ≡ start_with q t (rows_of table) }
    ensures sound { Sound result }
{
    Session {
        q,
        t,
        table,
        changes: table.seeds,
    }
}

/// Another table, which is one change more.
pub fn change(session: &mut Session, table: Table)
    requires kept { Kept session.old.q session.old.t table }
    requires room { session.old.changes < 1000000 }
    ensures state { view session.new ≡ state.changed (view session.old) (rows_of table) }
    ensures sound { Sound session.new }
{
    session.table = table;
    session.changes += 1;
}

/// Makes the seed present or withdrawn.
pub fn move_to(session: &mut Session, number: usize, to: bool) -> Result<(), Refusal>
    ensures { Does session.old (moving number to) (answer_in result) session.new }
{
    judge_move(session, number, to)?;
    change(session, moved(session.table, number - 1, to));
    Ok(())
}

/// Adds the seed of these q and t, as far as both lists go, and answers its number.
pub fn add(session: &mut Session, qs: &[u8], ts: &[u8], score: i32) -> Result<usize, Refusal>
    ensures does { Does session.old (add (pairs_of qs.now ts.now) score) (answer_in result) session.new }
    ensures number { IfOk result (λ number. number ≡ length (view session.old).rows + 1) }
{
    let table = with_seed(session.q, session.t, session.table, qs, ts, score)?;
    judge_count(session.changes)?;
    change(session, table);
    Ok(table.seeds)
}
