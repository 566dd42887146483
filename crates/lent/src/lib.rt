//! The two calls on lent memory: a seed is added from a lent slice of pairs, and rescored in the session that the caller holds.
#![tactic(auto)]

mod listing;

ghost use Rattle.std.specs.Prelude.{◌≡◌, ◌+◌, length, IfOk};
ghost use Rattle.answer.specs.Refusal.{answer_in};
ghost use Rattle.chain.specs.Acts.{add, rescore};
ghost use Rattle.chain.specs.View.{view, Sound, Does};

use answer::Refusal;
use chain::{Added, Session};
use listing::{add_listed, listed};
use seed::Pair;

/// Adds the seed of these pairs and answers its number.
pub fn add(session: Session, pairs: &[Pair], score: i32) -> Added
    ensures does { Does session (add pairs.now score) (answer_in result.answer) result.session }
    ensures number { IfOk result.answer (λ number. number ≡ length (view session).rows + 1) }
{
    add_listed(session, &listed(pairs), score)
}

/// Gives the seed another score, present or not, in the session that the caller holds.
pub fn rescore(session: &mut Session, number: usize, score: i32) -> Result<(), Refusal>
    ensures { Does session.old (rescore number score) (answer_in result) session.new }
{
    session.rescore(number, score)
}
