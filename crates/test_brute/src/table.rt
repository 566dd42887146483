//! A plain table of the seeds of a random case, and the best chain by trying every set of them.
use super::seeds::{List, Trees, chainable, no_pairs};
use test_words::plain::{more, plus, small};

/// At most eight seeds, counted from 0. A score is kept as points: 5 more than it is. Which two seeds are chainable is kept in both orders.
#[derive(Clone, Copy)]
pub struct Table {
    pub count: usize,
    pub seeds: [List; 8],
    pub points: [u8; 8],
    pub present: [bool; 8],
    pub joined: [bool; 64],
}

pub fn no_seeds() -> Table {
    Table {
        count: 0,
        seeds: [no_pairs(); 8],
        points: [0; 8],
        present: [false; 8],
        joined: [false; 64],
    }
}

pub fn seed(t: Table, i: usize) -> List {
    if i < 8 { t.seeds[i] } else { no_pairs() }
}

fn with_list(t: Table, i: usize, list: List) -> Table {
    let mut next = t;
    if i < 8 {
        next.seeds[i] = list;
    }
    next
}

pub fn is_present(t: Table, i: usize) -> bool {
    i < 8 && t.present[i]
}

pub fn with_presence(t: Table, i: usize, to: bool) -> Table {
    let mut next = t;
    if i < 8 {
        next.present[i] = to;
    }
    next
}

fn points(t: Table, i: usize) -> usize {
    if i < 8 { t.points[i] as usize } else { 0 }
}

pub fn with_points(t: Table, i: usize, points: usize) -> Table {
    let mut next = t;
    if i < 8 {
        next.points[i] = small(points);
    }
    next
}

fn join(t: Table, i: usize, j: usize) -> Table {
    let mut next = t;
    if i < 8 && j < 8 {
        next.joined[8 * i + j] = true;
        next.joined[8 * j + i] = true;
    }
    next
}

fn are_joined(t: Table, i: usize, j: usize) -> bool {
    i < 8 && j < 8 && t.joined[8 * i + j]
}

// The last seed is joined with each before it with which it is chainable.
fn with_joins(t: Table, trees: Trees, i: usize) -> Table {
    let mut next = t;
    for j in 0..i {
        if chainable(trees, seed(next, j), seed(next, i)) {
            next = join(next, j, i);
        }
    }
    next
}

pub fn with_seed(t: Table, trees: Trees, list: List, points: usize) -> Table {
    let i = t.count;
    let mut next = with_list(t, i, list);
    next.count = more(i);
    with_joins(
        with_points(with_presence(next, i, true), i, points),
        trees,
        i,
    )
}

/// Whether a set of seeds, a number in binary, has seed i.
pub fn has(set: usize, i: usize) -> bool {
    i < 8 && (set >> i) % 2 == 1
}

// Whether seed i is present and chainable with each seed of a set that stands before it.
fn stands(t: Table, set: usize, i: usize) -> bool {
    is_present(t, i) && (0..i).all(|j| !has(set, j) || are_joined(t, j, i))
}

fn is_chain(t: Table, set: usize) -> bool {
    (0..8).all(|i| !has(set, i) || stands(t, set, i))
}

// The total of a set and 1000, so that it is never below 0.
fn worth(t: Table, set: usize) -> usize {
    let mut sum = 1000;
    for i in 0..8 {
        if has(set, i) {
            sum = plus(sum, points(t, i)).saturating_sub(5);
        }
    }
    sum
}

/// A chain, its worth, and how many chains are worth as much.
#[derive(Clone, Copy)]
pub struct Choice {
    pub set: usize,
    pub worth: usize,
    pub ties: usize,
}

// Tie rule: at the highest seed number that is in just one of two sets, the set without it wins.
fn wins(a: usize, b: usize) -> bool {
    for k in 0..8 {
        if has(a, 7 - k) {
            if !has(b, 7 - k) {
                return false;
            }
        } else if has(b, 7 - k) {
            return true;
        }
    }
    false
}

fn better(best: Choice, set: usize, worth: usize) -> Choice {
    if worth < best.worth {
        return best;
    }
    if best.worth < worth {
        return Choice {
            set,
            worth,
            ties: 1,
        };
    }
    let mut next = best;
    next.ties = more(best.ties);
    if wins(set, best.set) {
        next.set = set;
    }
    next
}

/// The best of all chains.
pub fn best(t: Table) -> Choice {
    let mut choice = Choice {
        set: 0,
        worth: 1000,
        ties: 1,
    };
    for k in 1..256 {
        let set = 256 - k;
        if is_chain(t, set) {
            choice = better(choice, set, worth(t, set));
        }
    }
    choice
}
