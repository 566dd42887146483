//! The open areas of a seed in the paper's order of work: its Algorithm 3 over all pairs of the seed, whether on a border or not, with its last push
//! read as the pair just treated. Lines are the algorithm's; those of the leftmost area, 22 to 24, stand behind the loop of
//! the middle ones. An area goes from its first nodes up to those before its end, which spares numbers below 0.
use super::lists::{with_pair, without_last};
use super::nodes::{Nodes, ancestor, leaf, leftmost};
use super::seeds::{List, Trees, last, no_pairs, node};
use test_words::plain::{fourfold, less, more, part, small};

// The rightmost leaf of node i: the last leaf in its subtree.
fn rightmost(t: Nodes, i: usize) -> usize {
    let found = (0..16).rev().find(|&j| ancestor(t, i, j) && leaf(t, j));
    found.unwrap_or(i)
}

// The rightmost root of node i, which the paper calls u: of the nodes with its rightmost leaf the one with the highest number.
fn rightmost_root(t: Nodes, i: usize) -> usize {
    let end = rightmost(t, i);
    let found = (0..16).rev().find(|&k| k < t.n && rightmost(t, k) == end);
    found.unwrap_or(i)
}

// A node of Q and one of T.
#[derive(Clone, Copy)]
struct Pair {
    q: usize,
    t: usize,
}

fn pair_at(list: List, k: usize) -> Pair {
    Pair {
        q: node(list.q, k),
        t: node(list.t, k),
    }
}

// The leftmost leaves of a pair of nodes.
fn first_leaves(trees: Trees, p: Pair) -> Pair {
    Pair {
        q: leftmost(trees.q, p.q),
        t: leftmost(trees.t, p.t),
    }
}

// The nodes behind its rightmost roots.
fn behind_roots(trees: Trees, p: Pair) -> Pair {
    Pair {
        q: more(rightmost_root(trees.q, p.q)),
        t: more(rightmost_root(trees.t, p.t)),
    }
}

// The areas found: four bytes each.
#[derive(Clone, Copy)]
struct Found {
    count: usize,
    boxes: [u8; 64],
}

fn with_number(f: Found, at: usize, n: usize) -> Found {
    let mut next = f;
    if at < 64 {
        next.boxes[at] = small(n);
    }
    next
}

// The side of an area in one tree, at its place.
fn with_side(f: Found, at: usize, from: usize, end: usize) -> Found {
    with_number(with_number(f, at, from), more(at), less(end))
}

// One area more, if it is not empty.
fn with_area(f: Found, from: Pair, end: Pair) -> Found {
    if end.q <= from.q || end.t <= from.t {
        return f;
    }
    let at = fourfold(f.count);
    let in_q = with_side(f, at, from.q, end.q);
    let mut next = with_side(in_q, more(more(at)), from.t, end.t);
    next.count = more(f.count);
    next
}

// How far the work is: the areas found, the stack, and the pair taken last from it.
#[derive(Clone, Copy)]
struct Work {
    found: Found,
    stack: List,
    taken: Pair,
}

fn top(w: Work) -> Pair {
    Pair {
        q: last(w.stack.q),
        t: last(w.stack.t),
    }
}

fn with_found(w: Work, from: Pair, end: Pair) -> Work {
    let mut next = w;
    next.found = with_area(w.found, from, end);
    next
}

fn popped(w: Work) -> Work {
    let mut next = w;
    next.taken = top(w);
    next.stack = without_last(w.stack);
    next
}

// Line 16: whether a pair is on the stack and its q is at least low.
fn goes_on(w: Work, low: usize) -> bool {
    0 < w.stack.q.count && low <= last(w.stack.q)
}

// Lines 16 to 21: the middle areas, each between the pair taken last and the one on top.
fn with_middle(trees: Trees, w: Work, low: usize) -> Work {
    let mut next = w;
    for _ in 0usize..4 {
        if !goes_on(next, low) {
            return next;
        }
        let from = behind_roots(trees, top(next));
        next = popped(with_found(next, from, first_leaves(trees, next.taken)));
    }
    next
}

// Lines 9 to 24: the areas under a pair that has pairs under it, the rightmost of which is on top.
fn with_gaps(trees: Trees, w: Work, b: Pair) -> Work {
    let low = first_leaves(trees, b);
    let right = popped(with_found(w, behind_roots(trees, top(w)), b));
    let middle = with_middle(trees, right, low.q);
    with_found(middle, low, first_leaves(trees, middle.taken))
}

// Line 5: whether no pair is under the one at a place.
fn is_lowest(trees: Trees, seed: List, i: usize) -> bool {
    i == 0 || node(seed.q, i - 1) < leftmost(trees.q, node(seed.q, i))
}

// Lines 5 to 24: the areas under the pair at a place.
fn with_areas(trees: Trees, seed: List, w: Work, i: usize) -> Work {
    let b = pair_at(seed, i);
    if is_lowest(trees, seed, i) {
        return with_found(w, first_leaves(trees, b), b);
    }
    with_gaps(trees, w, b)
}

// Lines 25 and 26. The last pair is pushed too, and nobody looks at it.
fn pushed(w: Work, b: Pair) -> Work {
    let mut next = w;
    next.stack = with_pair(w.stack, b.q, b.t);
    next
}

fn start() -> Work {
    Work {
        found: Found {
            count: 0,
            boxes: [0; 64],
        },
        stack: no_pairs(),
        taken: Pair { q: 0, t: 0 },
    }
}

// Lines 4 to 26: all the work, pair by pair.
fn worked(trees: Trees, seed: List) -> Work {
    let mut w = start();
    for i in 0..seed.q.count {
        w = pushed(with_areas(trees, seed, w, i), pair_at(seed, i));
    }
    w
}

/// Whether these boxes are those that the work finds, in the order in which it finds them.
pub fn in_order_of_work(trees: Trees, seed: List, boxes: &[u8]) -> bool {
    let found = worked(trees, seed).found;
    part(&found.boxes, 0, fourfold(found.count)) == boxes
}
