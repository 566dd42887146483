//! The grounds that look at seed numbers, presence and the change count.
ghost use Rattle.std.specs.Prelude.{◌≡◌};
ghost use Rattle.answer.specs.Answer.{Accepted};
ghost use Rattle.answer.specs.Refusal.{answer_in};
ghost use Rattle.table.specs.Rows.{given_out};
ghost use Rattle.chain.specs.State.{count_answer};
ghost use Rattle.chain.specs.Acts.{of_number, move_answer, rescore_answer};
ghost use Rattle.chain.specs.View.{view, Sound};

use super::Session;
use answer::{Ground, Place, Refusal};
use table::{in_range, summary_at};

// Whether the number is one of 1 to seeds.
#[tactic(auto, unfolding(table::specs::Rows::given_out))]
fn given_out(seeds: usize, number: usize) -> bool
    ensures { result ≡ given_out seeds number }
{
    1 <= number && number <= seeds
}

/// Ground 9.
pub fn judge_number(session: &Session, number: usize) -> Result<(), Refusal>
    ensures answer { answer_in result ≡ of_number (view session.now) number Accepted }
    ensures sound { Sound session.now }
{
    if !given_out(session.table.seeds, number) {
        return Err(Ground::NumberNotGiven.at(Place::Nothing));
    }
    Ok(())
}

/// Ground 20, the last of every call that adds to the count.
#[tactic(auto, unfolding(crate::specs::State::count_answer))]
pub fn judge_count(changes: usize) -> Result<(), Refusal>
    ensures { answer_in result ≡ count_answer changes }
{
    if 1000000 <= changes {
        return Err(Ground::ChangeLimit.at(Place::Nothing));
    }
    Ok(())
}

/// Grounds 9, 11 and 20.
pub fn judge_rescore(session: &Session, number: usize, score: i32) -> Result<(), Refusal>
    ensures answer { answer_in result ≡ rescore_answer (view session.now) number score }
    ensures sound { Sound session.now }
{
    judge_number(session, number)?;
    if !in_range(score) {
        return Err(Ground::ScoreRange.at(Place::Seed(number)));
    }
    judge_count(session.changes)
}

/// Grounds 9, 10 and 20.
pub fn judge_move(session: &Session, number: usize, to: bool) -> Result<(), Refusal>
    ensures answer { answer_in result ≡ move_answer (view session.now) number to }
    ensures sound { Sound session.now }
{
    judge_number(session, number)?;
    if summary_at(session.table, number - 1).present == to {
        return Err(Ground::PresenceAsAsked.at(Place::Nothing));
    }
    judge_count(session.changes)
}
