//! A random session beside a plain table of its seeds: lists are added, and seeds withdrawn, brought back and rescored, and every answer is
//! held to what the table asks.

use answer::{Place, Refusal};
use chain::{Added, Changed, Session};
use test_brute::seeds::{List, Trees, judge};
use test_brute::table::{Table, is_present, with_points, with_presence, with_seed};
use test_calls::changes::{handed_over, moved};
use test_random::draw;
use test_random::lists::list;
use test_random::tally::{Count, Seen, counted, with_seeds};
use test_words::plain::{less, more, part, within};

/// The session and its trees, the table of its seeds, and what is counted.
#[derive(Clone, Copy)]
pub struct Play {
    pub session: Session,
    pub trees: Trees,
    pub table: Table,
    pub count: Count,
    pub seen: Seen,
}

/// A session on two structures.
pub fn opened(q: &[u8], t: &[u8]) -> Session {
    handed_over(chain::open(q, t)).session
}

// The score that so many points are.
fn score_of(points: usize) -> i32 {
    let scores = [-5, -4, -3, -2, -1, 0, 1, 2, 3, 4, 5];
    if points < 11 { scores[points] } else { 0 }
}

// Whether an add answered as the ground asks, for the seed of this number: an accepted one answers the number, and a refused one names it.
fn add_right(answer: Result<usize, Refusal>, ground: usize, number: usize) -> bool {
    match answer {
        Ok(given) => ground == 0 && given == number,
        Err(refusal) => {
            refusal.ground.number() == ground && refusal.place == Place::Seed(number)
        }
    }
}

fn with_new(t: Table, trees: Trees, l: List, points: usize, ground: usize) -> Table {
    if ground == 0 {
        return with_seed(t, trees, l, points);
    }
    t
}

pub fn added(session: Session, list: List, score: i32) -> Added {
    let count = list.q.count;
    session.added(
        part(&list.q.node, 0, count),
        part(&list.t.node, 0, count),
        score,
    )
}

/// One random list is added.
pub fn add(rt: &impl Print, p: Play, state: &mut u64) -> Play {
    let trees = p.trees;
    let table = p.table;
    let session = p.session;
    let count = p.count;
    let seen = p.seen;
    let l = list(state, trees);
    let points = draw(state, 11);
    let r = added(session, l, score_of(points));
    let ground = judge(trees, l);
    let right = add_right(r.answer, ground, more(table.count));
    let mut next = p;
    next.session = r.session;
    next.table = with_new(table, trees, l, points, ground);
    next.count = counted(rt, count, ground, right);
    next.seen = with_seeds(seen, ground);
    next
}

fn given_out(t: Table, number: usize) -> bool {
    within(1, t.count, number)
}

// The ground of a withdrawal, or of a bringing back if the seed is to be present.
fn move_ground(t: Table, number: usize, to: bool) -> usize {
    if !given_out(t, number) {
        return 9;
    }
    if is_present(t, less(number)) == to {
        10
    } else {
        0
    }
}

fn with_moved(t: Table, number: usize, to: bool, ground: usize) -> Table {
    if ground == 0 {
        return with_presence(t, less(number), to);
    }
    t
}

// Whether a change answered as the ground asks: a refusal names no place.
fn change_right(answer: Result<(), Refusal>, ground: usize) -> bool {
    match answer {
        Ok(()) => ground == 0,
        Err(refusal) => refusal.ground.number() == ground && refusal.place == Place::Nothing,
    }
}

fn answered(rt: &impl Print, p: Play, r: Changed, ground: usize, table: Table) -> Play {
    let count = p.count;
    let right = change_right(r.answer, ground);
    let mut next = p;
    next.session = r.session;
    next.table = table;
    next.count = counted(rt, count, ground, right);
    next
}

// A seed is withdrawn, or brought back if it is to be present.
fn move_to(rt: &impl Print, p: Play, number: usize, to: bool) -> Play {
    let session = p.session;
    let table = p.table;
    let ground = move_ground(table, number, to);
    let later = with_moved(table, number, to, ground);
    answered(rt, p, moved(session, number, to), ground, later)
}

fn rescore_ground(t: Table, number: usize) -> usize {
    if given_out(t, number) { 0 } else { 9 }
}

fn with_rescored(t: Table, number: usize, points: usize, ground: usize) -> Table {
    if ground == 0 {
        return with_points(t, less(number), points);
    }
    t
}

fn rescore(rt: &impl Print, p: Play, number: usize, points: usize) -> Play {
    let session = p.session;
    let table = p.table;
    let ground = rescore_ground(table, number);
    let later = with_rescored(table, number, points, ground);
    answered(
        rt,
        p,
        session.rescored(number, score_of(points)),
        ground,
        later,
    )
}

/// One random change.
pub fn change(rt: &impl Print, p: Play, state: &mut u64) -> Play {
    let table = p.table;
    let number = draw(state, more(more(table.count)));
    let way = draw(state, 5);
    if way < 2 {
        return move_to(rt, p, number, false);
    }
    if way < 3 {
        return move_to(rt, p, number, true);
    }
    rescore(rt, p, number, draw(state, 11))
}
