//! Random sessions on two small trees: eight lists are added and six changes made, with the best chain after each step; then the open areas of
//! every seed and the deck.
#![tactic(auto)]

mod look;
pub mod play;

use look::{best, deal, list_areas};
use play::{Play, add, change, opened};
use test_brute::nodes::nodes_of;
use test_brute::seeds::Trees;
use test_brute::table::no_seeds;
use test_random::draw;
use test_random::samples::{Sample, bytes_of, respelled, structure};
use test_random::tally::{Counts, marked, none, nothing, print_if_wrong, with_texts};

fn adds(rt: &impl Print, p: Play, state: &mut u64) -> Play {
    let mut next = p;
    for _ in 0usize..8 {
        next = best(rt, add(rt, next, state));
    }
    next
}

fn changes(rt: &impl Print, p: Play, state: &mut u64) -> Play {
    let mut next = p;
    for _ in 0usize..6 {
        next = best(rt, change(rt, next, state));
    }
    next
}

fn all_areas(rt: &impl Print, p: Play) -> Play {
    let mut next = p;
    for i in 0..8 {
        next = list_areas(rt, next, i);
    }
    next
}

// The session of a random case once all is done to it.
fn played(rt: &impl Print, q: &[u8], t: &[u8], state: &mut u64, counts: Counts) -> Play {
    let start = Play {
        session: opened(q, t),
        trees: Trees {
            q: nodes_of(q),
            t: nodes_of(t),
        },
        table: no_seeds(),
        count: counts.count,
        seen: counts.seen,
    };
    all_areas(rt, changes(rt, adds(rt, start, state), state))
}

// A random case on two texts, with its deck.
fn on_texts(rt: &impl Print, q: &[u8], t: &[u8], state: &mut u64, counts: Counts) -> Counts {
    let p = played(rt, q, t, state, counts);
    let seen = p.seen;
    let count = marked(rt, p.count, deal(p, q, t), b"a deck");
    Counts { count, seen }
}

// What is counted from case to case, with one on two texts more.
fn begun(q: Sample, t: Sample, counts: Counts) -> Counts {
    Counts {
        count: counts.count,
        seen: with_texts(counts.seen, q, t),
    }
}

// One random case: its two texts are printed if an answer in it is wrong.
fn one(rt: &impl Print, q: Sample, t: Sample, state: &mut u64, counts: Counts) -> Counts {
    let next = on_texts(rt, bytes_of(&q), bytes_of(&t), state, counts);
    print_if_wrong(rt, counts.count, next.count, q, t);
    next
}

/// The second structure: half the time the first again, in other characters.
pub fn other(q: Sample, state: &mut u64) -> Sample {
    if draw(state, 2) == 0 {
        return respelled(q, *state);
    }
    structure(state)
}

// One random session.
fn session(rt: &impl Print, state: &mut u64, counts: Counts) -> Counts {
    let q = structure(state);
    let t = other(q, state);
    one(rt, q, t, state, begun(q, t, counts))
}

pub fn sessions(rt: &impl Print, cases: usize, seed: u64) -> Counts {
    let mut state = seed;
    let mut counts = Counts {
        count: none(),
        seen: nothing(),
    };
    for _ in 0..cases {
        counts = session(rt, &mut state, counts);
    }
    counts
}
