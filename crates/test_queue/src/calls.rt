//! Random calls of a queue, drawn from several mixtures of offers and turns.
use super::definition::{NONE, ORDINARY, URGENT};
use test_random::draw;
use test_words::plain::{less, plus, to_u16};

// An offer of a job of a kind, or, of no kind, a turn.
#[derive(Clone, Copy)]
pub struct Call {
    pub kind: u8,
    pub query: u16,
    pub structure: u16,
}

fn turn() -> Call {
    Call {
        kind: NONE,
        query: 0,
        structure: 0,
    }
}

// How calls are mixed: of 16 so many are turns, and of 16 offers so many are urgent. It holds for so many calls more.
#[derive(Clone, Copy)]
pub struct Mixture {
    turns: usize,
    urgent: usize,
    calls: usize,
}

fn mixed(turns: usize, urgent: usize, calls: usize) -> Mixture {
    Mixture {
        turns,
        urgent,
        calls,
    }
}

// A run of calls of one sort: turns alone, urgent offers alone or ordinary offers alone.
fn burst(state: &mut u64) -> Mixture {
    let calls = plus(1, draw(state, 20));
    match draw(state, 3) {
        0 => mixed(16, 0, calls),
        1 => mixed(0, 16, calls),
        _ => mixed(0, 0, calls),
    }
}

// One of the mixtures for a list of so many calls: mostly offers, so that the queue is full often; mostly turns, so that it is empty often; many
// urgent jobs and few ordinary ones; three urgent ones to an ordinary one, so that both wait long; mostly ordinary ones; and bursts.
pub fn any_mixture(state: &mut u64, calls: usize) -> Mixture {
    match draw(state, 6) {
        0 => mixed(4, 8, calls),
        1 => mixed(10, 8, calls),
        2 => mixed(6, 14, calls),
        3 => mixed(5, 12, calls),
        4 => mixed(6, 3, calls),
        _ => burst(state),
    }
}

// The mixture after a call: another burst once it is used up.
pub fn next(m: Mixture, state: &mut u64) -> Mixture {
    if m.calls <= 1 {
        return burst(state);
    }
    mixed(m.turns, m.urgent, less(m.calls))
}

// Any number of 16 bits, now and then the first or the last one.
fn number(state: &mut u64) -> u16 {
    match draw(state, 16) {
        0 => 0,
        1 => 65535,
        _ => to_u16(draw(state, 256) % 256 * 256 + draw(state, 256) % 256),
    }
}

// A job, now and then of small numbers, so that some are equal.
fn offer(kind: u8, state: &mut u64) -> Call {
    if draw(state, 8) == 0 {
        return Call {
            kind,
            query: to_u16(draw(state, 2)),
            structure: to_u16(draw(state, 2)),
        };
    }
    Call {
        kind,
        query: number(state),
        structure: number(state),
    }
}

// One random call of a mixture.
pub fn drawn(m: Mixture, state: &mut u64) -> Call {
    if draw(state, 16) < m.turns {
        return turn();
    }
    if draw(state, 16) < m.urgent {
        return offer(URGENT, state);
    }
    offer(ORDINARY, state)
}
