//! Seeds, chains and open areas of small trees, straight by the definitions.
use super::nodes::{Nodes, Set, ancestor, children_in, has, kind, leaf, none, parent, with};
use test_words::plain::{less, part, wide};

/// The q of a list of at most four pairs, or its t.
#[derive(Clone, Copy)]
pub struct Column {
    pub count: usize,
    pub node: [u8; 4],
}

pub fn node(c: Column, k: usize) -> usize {
    if k < 4 { c.node[k] as usize } else { 255 }
}

// The nodes of a column.
fn nodes(c: &Column) -> &[u8] {
    part(&c.node, 0, c.count)
}

/// The last node of a column, and 255 if it has none.
pub fn last(c: Column) -> usize {
    nodes(&c).last().map_or(255, |&i| wide(i))
}

/// The list of pairs that two columns are.
#[derive(Clone, Copy)]
pub struct List {
    pub q: Column,
    pub t: Column,
}

pub fn no_pairs() -> List {
    List {
        q: Column {
            count: 0,
            node: [0; 4],
        },
        t: Column {
            count: 0,
            node: [0; 4],
        },
    }
}

/// The two trees.
#[derive(Clone, Copy)]
pub struct Trees {
    pub q: Nodes,
    pub t: Nodes,
}

fn all_nodes(t: Nodes, c: Column) -> bool {
    nodes(&c).iter().all(|&i| wide(i) < t.n)
}

// Whether each pair joins two unpaired bases, two base pairs or the two added roots.
fn like_to_like(trees: Trees, list: List) -> bool {
    (0..list.q.count).all(|k| kind(trees.q, node(list.q, k)) == kind(trees.t, node(list.t, k)))
}

fn rises(c: Column) -> bool {
    (1..c.count).all(|k| node(c, less(k)) < node(c, k))
}

// Whether two pairs are a mapping: equal, smaller and ancestor in Q exactly if in T.
fn agree(trees: Trees, q: usize, t: usize, p: usize, u: usize) -> bool {
    (q == p) == (t == u)
        && (q < p) == (t < u)
        && ancestor(trees.q, q, p) == ancestor(trees.t, t, u)
        && ancestor(trees.q, p, q) == ancestor(trees.t, u, t)
}

// Whether a pair agrees with each pair of a list.
fn agree_all(trees: Trees, list: List, p: usize, u: usize) -> bool {
    (0..list.q.count).all(|k| agree(trees, node(list.q, k), node(list.t, k), p, u))
}

// Whether any pair of one list agrees with any pair of another.
fn mapping(trees: Trees, a: List, b: List) -> bool {
    (0..b.q.count).all(|k| agree_all(trees, a, node(b.q, k), node(b.t, k)))
}

// Whether the last node is an ancestor of all others.
fn rooted(t: Nodes, c: Column) -> bool {
    (0..less(c.count)).all(|k| ancestor(t, last(c), node(c, k)))
}

// The set with the nodes on the path from one node up to another.
fn with_path(t: Nodes, s: Set, from: usize, to: usize) -> Set {
    let mut set = s;
    let mut k = from;
    for _ in 0usize..16 {
        set = with(set, k);
        if k == to {
            return set;
        }
        k = parent(t, k);
    }
    set
}

// The span: all nodes of the column and those on the paths from them up to the last.
fn span(t: Nodes, c: Column) -> Set {
    let mut set = none();
    for &i in nodes(&c) {
        set = with_path(t, set, wide(i), last(c));
    }
    set
}

fn listed(c: Column, i: usize) -> bool {
    nodes(&c).iter().any(|&node| wide(node) == i)
}

// Whether a node is on the border of a span: it is a leaf or has a child outside.
fn on_border(t: Nodes, s: Set, i: usize) -> bool {
    has(s, i) && (leaf(t, i) || !children_in(t, s, i))
}

// Whether every border node of the span is in the column.
fn bordered(t: Nodes, c: Column) -> bool {
    let s = span(t, c);
    (0..16).all(|i| !on_border(t, s, i) || listed(c, i))
}

/// The first of the grounds 15, 25 and 16 to 19 that holds of a list, and 0 if it is a seed.
pub fn judge(trees: Trees, list: List) -> usize {
    if !(all_nodes(trees.q, list.q) && all_nodes(trees.t, list.t)) {
        return 15;
    }
    if !like_to_like(trees, list) {
        return 25;
    }
    if !(rises(list.q) && rises(list.t)) {
        return 16;
    }
    if !mapping(trees, list, list) {
        return 17;
    }
    if !(rooted(trees.q, list.q) && rooted(trees.t, list.t)) {
        return 18;
    }
    if !(bordered(trees.q, list.q) && bordered(trees.t, list.t)) {
        return 19;
    }
    0
}

fn apart(a: Set, b: Set) -> bool {
    (0..16).all(|i| !(has(a, i) && has(b, i)))
}

/// Whether two seeds are chainable: their spans share no node, and their pairs together are a mapping.
pub fn chainable(trees: Trees, a: List, b: List) -> bool {
    apart(span(trees.q, a.q), span(trees.q, b.q))
        && apart(span(trees.t, a.t), span(trees.t, b.t))
        && mapping(trees, a, b)
}

/// Whether the nodes i and j fit a seed: properly below its last pair, outside its spans, and a mapping with it.
pub fn fits(trees: Trees, seed: List, i: usize, j: usize) -> bool {
    ancestor(trees.q, last(seed.q), i)
        && ancestor(trees.t, last(seed.t), j)
        && !has(span(trees.q, seed.q), i)
        && !has(span(trees.t, seed.t), j)
        && agree_all(trees, seed, i, j)
}
