//! A nudge of one seed, and how far the best total may move by it. A score is kept lifted, so that none is below 0.

use chain::{Changed, Session};
use test_words::line::{negative, positive};
use test_words::plain::plus;

/// How much more than the score a lifted score is.
pub const LIFT: usize = 3000000;

/// A score raised or lowered by so much, or a seed withdrawn or brought back.
#[derive(Clone, Copy)]
pub enum Nudge {
    Raise(usize),
    Lower(usize),
    Withdraw,
    BringBack,
}

/// Which of the four it is.
pub fn way_of(nudge: Nudge) -> usize {
    match nudge {
        Nudge::Raise(_) => 0,
        Nudge::Lower(_) => 1,
        Nudge::Withdraw => 2,
        Nudge::BringBack => 3,
    }
}

pub fn is_below_zero(lifted: usize) -> bool {
    lifted < LIFT
}

pub fn score_of(lifted: usize) -> i32 {
    if lifted < LIFT {
        return negative(LIFT - lifted);
    }
    positive(lifted - LIFT)
}

/// The lifted score of a seed after a nudge.
pub fn lifted_after(lifted: usize, nudge: Nudge) -> usize {
    match nudge {
        Nudge::Raise(by) => plus(lifted, by),
        Nudge::Lower(by) => lifted.saturating_sub(by),
        Nudge::Withdraw | Nudge::BringBack => lifted,
    }
}

/// The call of a nudge on the seed of this number and this lifted score.
pub fn called(session: Session, number: usize, lifted: usize, nudge: Nudge) -> Changed {
    let score = score_of(lifted_after(lifted, nudge));
    match nudge {
        Nudge::Raise(_) | Nudge::Lower(_) => session.rescored(number, score),
        Nudge::Withdraw => session.withdrawn(number),
        Nudge::BringBack => session.brought_back(number),
    }
}

// What a score can count for: the greater of it and 0.
fn worth(lifted: usize) -> usize {
    lifted.saturating_sub(LIFT)
}

// Another score of a withdrawn seed leaves the total.
fn if_present(present: bool, by: usize) -> usize {
    if present { by } else { 0 }
}

/// How far the total may rise by an accepted nudge of a seed that was present or not and had this lifted score.
pub fn most_up(nudge: Nudge, present: bool, lifted: usize) -> usize {
    match nudge {
        Nudge::Raise(by) => if_present(present, by),
        Nudge::Lower(_) => 0,
        Nudge::Withdraw => 0,
        Nudge::BringBack => worth(lifted),
    }
}

/// How far it may fall.
pub fn most_down(nudge: Nudge, present: bool, lifted: usize) -> usize {
    match nudge {
        Nudge::Raise(_) => 0,
        Nudge::Lower(by) => if_present(present, by),
        Nudge::Withdraw => worth(lifted),
        Nudge::BringBack => 0,
    }
}
