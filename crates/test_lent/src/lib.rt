//! For the tests: the two calls on lent memory by value, each of which lends to them.
#![tactic(auto)]

ghost use Rattle.std.specs.Prelude.{◌≡◌, ◌+◌, length, min, IfOk};
ghost use Rattle.answer.specs.Refusal.{answer_in};
ghost use Rattle.chain.specs.Acts.{add, rescore};
ghost use Rattle.chain.specs.View.{view, Sound, Does};
ghost use Rattle.test_lent.specs.Lending.{pairs_on};

use chain::{Added, Changed, Session};
use lent::{add, rescore};
use seed::Pair;

/// The first `count` of these pairs, and all if there are not so many.
#[derive(Clone, Copy)]
pub struct PairList {
    pub count: usize,
    pub pairs: [Pair; 1025],
}

// How many pairs a list of this count lends.
fn lent_count(count: usize) -> usize
    ensures { result ≡ min count 1025 }
{
    count.min(1025)
}

/// Adds the seed of a list by value, whose pairs are lent.
pub fn add_from(session: Session, list: PairList, score: i32) -> Added
    ensures does { Does session (add (pairs_on list) score) (answer_in result.answer) result.session }
    ensures number { IfOk result.answer (λ number. number ≡ length (view session).rows + 1) }
{
    let count = lent_count(list.count);
    let pairs = list.pairs;
    add(session, &pairs[..count], score)
}

/// Rescores in a session by value, which is lent and handed back.
pub fn rescore_by_reference(session: Session, number: usize, score: i32) -> Changed
    ensures { Does session (rescore number score) (answer_in result.answer) result.session }
{
    let mut held = session;
    let answer = rescore(&mut held, number, score);
    Changed {
        answer,
        session: held,
    }
}
