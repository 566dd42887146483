//! Random nudges on two small trees: eight lists are added, then scores raised and lowered and seeds withdrawn and brought back, and the best
//! total before and after each is held to how far it can move.
#![tactic(auto)]

pub mod moves;
mod nudge;

use best::SCRATCH;
use chain::Session;
use moves::{Move, Moves, no_moves, with_move};
use nudge::{
    LIFT, Nudge, called, is_below_zero, lifted_after, most_down, most_up, score_of, way_of,
};
use test_brute::nodes::nodes_of;
use test_brute::seeds::Trees;
use test_random::draw;
use test_random::lists::list;
use test_random::samples::{Sample, bytes_of, structure};
use test_random::tally::print_if_wrong;
use test_sessions::other;
use test_sessions::play::{added, opened};
use test_words::answers::ground_of;
use test_words::plain::{more, plus};

// A session, how many seeds it has, their lifted scores by number, and what is counted.
#[derive(Clone, Copy)]
struct Play {
    session: Session,
    seeds: usize,
    lifted: [usize; 10],
    moves: Moves,
}

fn total_of(session: Session) -> usize {
    let mut scratch = [7u64; SCRATCH];
    match session.best_chain(&mut scratch) {
        Ok(best) => best.total as usize,
        Err(_) => 0,
    }
}

fn lifted_at(lifted: [usize; 10], number: usize) -> usize {
    if number < 10 { lifted[number] } else { 0 }
}

fn with_lifted(p: Play, number: usize, lifted: usize) -> Play {
    let mut next = p;
    if number < 10 {
        next.lifted[number] = lifted;
    }
    next
}

fn with_moves(p: Play, moves: Moves) -> Play {
    let mut next = p;
    next.moves = moves;
    next
}

fn with_session(p: Play, session: Session) -> Play {
    let mut next = p;
    next.session = session;
    next
}

// One random list is added with a score from −5 to 5; one that is no seed gets number 0.
fn add(p: Play, trees: Trees, state: &mut u64) -> Play {
    let session = p.session;
    let l = list(state, trees);
    let lifted = plus(LIFT - 5, draw(state, 11));
    let r = added(session, l, score_of(lifted));
    let number = r.answer.unwrap_or(0);
    let mut next = with_lifted(with_session(p, r.session), number, lifted);
    if 0 < number {
        next.seeds = number;
    }
    next
}

fn adds(p: Play, trees: Trees, state: &mut u64) -> Play {
    let mut next = p;
    for _ in 0usize..8 {
        next = add(next, trees, state);
    }
    next
}

// A call that moves no seed and no score stands between, or none: a number that is never given out, or a score out of range.
fn between(session: Session, number: usize, state: &mut u64) -> Session {
    let way = draw(state, 3);
    if way == 0 {
        return session;
    }
    if way == 1 {
        return session.withdrawn(65).session;
    }
    session.rescored(number, 1000001).session
}

// A random nudge: by nothing, by a little, and by so much that the score may be out of range.
fn drawn(state: &mut u64) -> Nudge {
    let steps = [0, 1, 2, 3, 4, 7, 100, 999997];
    // The remainder once more, since no bound is promised of what is drawn.
    let by = steps[draw(state, 8) % 8];
    match draw(state, 6) {
        0 | 1 => Nudge::Raise(by),
        2 | 3 => Nudge::Lower(by),
        4 => Nudge::Withdraw,
        _ => Nudge::BringBack,
    }
}

// What a nudge answered and left, and the total after it.
#[derive(Clone, Copy)]
struct Made {
    session: Session,
    ground: usize,
    to: usize,
}

fn asked(session: Session, number: usize, lifted: usize, nudge: Nudge, state: &mut u64) -> Made {
    let before = between(session, number, state);
    let r = called(before, number, lifted, nudge);
    let later = between(r.session, number, state);
    Made {
        session: later,
        ground: ground_of(r.answer),
        to: total_of(later),
    }
}

fn is_present(session: Session, number: usize) -> bool {
    match session.row(number) {
        Ok(row) => row.present,
        Err(_) => false,
    }
}

// How far a nudge may move the total: one that is refused not at all.
fn move_of(
    from: usize,
    to: usize,
    nudge: Nudge,
    present: bool,
    lifted: usize,
    ground: usize,
) -> Move {
    if ground != 0 {
        return Move {
            from,
            to,
            up: 0,
            down: 0,
        };
    }
    Move {
        from,
        to,
        up: most_up(nudge, present, lifted),
        down: most_down(nudge, present, lifted),
    }
}

fn with_made(p: Play, number: usize, lifted: usize, made: Made) -> Play {
    let session = made.session;
    let next = with_session(p, session);
    if made.ground != 0 {
        return next;
    }
    with_lifted(next, number, lifted)
}

// One random nudge of a seed, or of a number that is not given out.
fn nudged(rt: &impl Print, p: Play, state: &mut u64) -> Play {
    let session = p.session;
    let number = draw(state, more(more(p.seeds)));
    let nudge = drawn(state);
    let lifted = lifted_at(p.lifted, number);
    let present = is_present(session, number);
    let made = asked(session, number, lifted, nudge, state);
    let ground = made.ground;
    let m = move_of(total_of(session), made.to, nudge, present, lifted, ground);
    let moves = with_move(rt, p.moves, m, way_of(nudge), is_below_zero(lifted), ground);
    let next = with_made(p, number, lifted_after(lifted, nudge), made);
    with_moves(next, moves)
}

fn all_nudged(rt: &impl Print, p: Play, state: &mut u64) -> Play {
    let mut next = p;
    for _ in 0usize..16 {
        next = nudged(rt, next, state);
    }
    next
}

fn on_texts(rt: &impl Print, q: &[u8], t: &[u8], state: &mut u64, moves: Moves) -> Moves {
    let trees = Trees {
        q: nodes_of(q),
        t: nodes_of(t),
    };
    let start = Play {
        session: opened(q, t),
        seeds: 0,
        lifted: [0; 10],
        moves,
    };
    all_nudged(rt, adds(start, trees, state), state).moves
}

// One random session: its two texts are printed if a total in it is wrong.
fn one(rt: &impl Print, q: Sample, t: Sample, state: &mut u64, moves: Moves) -> Moves {
    let next = on_texts(rt, bytes_of(&q), bytes_of(&t), state, moves);
    print_if_wrong(rt, moves.count, next.count, q, t);
    next
}

fn session(rt: &impl Print, state: &mut u64, moves: Moves) -> Moves {
    let q = structure(state);
    let t = other(q, state);
    one(rt, q, t, state, moves)
}

pub fn nudges(rt: &impl Print, cases: usize, seed: u64) -> Moves {
    let mut state = seed;
    let mut all = no_moves();
    for _ in 0..cases {
        all = session(rt, &mut state, all);
    }
    all
}
