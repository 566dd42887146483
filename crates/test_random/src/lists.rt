//! Random lists of pairs of two trees, drawn so that most pairs join nodes of one kind.
use super::draw;
use test_brute::lists::with_pair;
use test_brute::nodes::{Nodes, kind, parent};
use test_brute::seeds::{List, Trees, no_pairs};
use test_words::plain::{less, more, plus};

// The first node from a place on that is of one kind.
fn first_like(t: Nodes, wanted: u8, from: usize) -> Option<usize> {
    (from..16).find(|&j| kind(t, j) == wanted)
}

// A node of T for node i of Q: the first from j on that is of its kind, or the first of all. Now and then, and if T has none, it is j itself.
fn like_node(state: &mut u64, q: Nodes, t: Nodes, i: usize, j: usize) -> usize {
    if draw(state, 12) == 0 {
        return j;
    }
    let behind = first_like(t, kind(q, i), j);
    behind.or(first_like(t, kind(q, i), 0)).unwrap_or(j)
}

// A number for a node of T: half the time that of the node of Q.
fn number_for(state: &mut u64, i: usize, n: usize) -> usize {
    if draw(state, 2) == 0 && i < n {
        return i;
    }
    draw(state, n)
}

// A node of T for a node of Q.
fn partner(state: &mut u64, q: Nodes, t: Nodes, i: usize) -> usize {
    let j = number_for(state, i, t.n);
    like_node(state, q, t, i, j)
}

// The parent, or with two steps the parent's, unless that is past the root.
fn above(t: Nodes, i: usize, two: bool) -> usize {
    let p = parent(t, i);
    if two && parent(t, p) < 255 {
        return parent(t, p);
    }
    p
}

// Whether a path ends before a pair: mostly so, if its nodes are unlike.
fn ends_before(state: &mut u64, q: Nodes, t: Nodes, i: usize, j: usize) -> bool {
    kind(q, i) != kind(t, j) && 0 < draw(state, 12)
}

// Pairs along a path of both trees, up to their roots at most.
fn along(state: &mut u64, q: Nodes, t: Nodes, count: usize) -> List {
    let mut l = no_pairs();
    let mut i = draw(state, q.n);
    let mut j = partner(state, q, t, i);
    for _ in 0..count {
        if 254 < i || 254 < j {
            return l;
        }
        l = with_pair(l, i, j);
        let two = draw(state, 3) == 0;
        i = above(q, i, two);
        j = above(t, j, two);
        if ends_before(state, q, t, i, j) {
            return l;
        }
    }
    l
}

// Two children of a node with the node, in both trees: the second is the last child, or in T a node like it.
fn fork(state: &mut u64, q: Nodes, t: Nodes) -> List {
    let i = draw(state, q.n);
    let j = partner(state, q, t, i);
    let p = parent(q, i);
    let u = parent(t, j);
    let first = with_pair(no_pairs(), i, j);
    let last = like_node(state, q, t, less(p), less(u));
    with_pair(with_pair(first, less(p), last), p, u)
}

// A number behind another, by two or more.
fn farther(state: &mut u64, i: usize, n: usize) -> usize {
    plus(more(more(i)), draw(state, n) / 4)
}

// Numbers that rise, but for a t without a like node behind it.
fn rising(state: &mut u64, q: Nodes, t: Nodes, count: usize) -> List {
    let mut l = no_pairs();
    let mut i = draw(state, 2);
    let mut j = draw(state, 2);
    for _ in 0..count {
        j = like_node(state, q, t, i, j);
        l = with_pair(l, i, j);
        i = farther(state, i, q.n);
        j = farther(state, j, t.n);
    }
    l
}

// Numbers that are in the trees or just past their ends, of any kind.
fn wild(state: &mut u64, q: Nodes, t: Nodes, count: usize) -> List {
    let mut l = no_pairs();
    for _ in 0..count {
        let i = draw(state, more(q.n));
        l = with_pair(l, i, draw(state, more(t.n)));
    }
    l
}

/// A random list of 1 to 3 pairs: mostly along a path, sometimes a fork, sometimes rising, sometimes wild.
pub fn list(state: &mut u64, trees: Trees) -> List {
    let q = trees.q;
    let t = trees.t;
    let count = more(draw(state, 3));
    let way = draw(state, 14);
    if way < 8 {
        return along(state, q, t, count);
    }
    if way < 10 {
        return fork(state, q, t);
    }
    if way < 13 {
        return rising(state, q, t, count);
    }
    wild(state, q, t, count)
}
