//! A tree by the parent and the kind of each of its nodes, read from a text of at most 12 bytes, without the library.
use super::texts::{closes, opens};
use test_words::plain::{more, small};

// The kinds of nodes.
const UNPAIRED_BASE: u8 = 0;

const BASE_PAIR: u8 = 1;

const ADDED_ROOT: u8 = 2;

/// The nodes in postfix order, with the added root last. A node that no node has taken as a child has the parent 255, and a number that is no
/// node has the kind 255.
#[derive(Clone, Copy)]
pub struct Nodes {
    pub n: usize,
    pub parent: [u8; 16],
    pub kind: [u8; 16],
}

pub fn parent(t: Nodes, i: usize) -> usize {
    if i < 16 { t.parent[i] as usize } else { 255 }
}

fn with_parent(t: Nodes, i: usize, p: usize) -> Nodes {
    let mut next = t;
    if i < 16 {
        next.parent[i] = small(p);
    }
    next
}

/// Which kind node i is of: unpaired base, base pair or added root.
pub fn kind(t: Nodes, i: usize) -> u8 {
    if i < 16 { t.kind[i] } else { 255 }
}

fn with_kind(t: Nodes, i: usize, kind: u8) -> Nodes {
    let mut next = t;
    if i < 16 {
        next.kind[i] = kind;
    }
    next
}

// One node more, which takes those from a place on that have no parent as its children.
fn with_node(t: Nodes, from: usize) -> Nodes {
    let mut next = t;
    let n = t.n;
    for i in from..16 {
        if i < n && parent(next, i) == 255 {
            next = with_parent(next, i, n);
        }
    }
    next.n = more(n);
    next
}

/// How far a text is read: its nodes, which node each byte belongs to, and for each open bracket its byte and the nodes before it.
#[derive(Clone, Copy)]
pub struct Reader {
    pub nodes: Nodes,
    pub owner: [u8; 16],
    pub depth: usize,
    pub byte: [u8; 16],
    pub before: [u8; 16],
}

fn start() -> Reader {
    Reader {
        nodes: Nodes {
            n: 0,
            parent: [255; 16],
            kind: [255; 16],
        },
        owner: [255; 16],
        depth: 0,
        byte: [0; 16],
        before: [0; 16],
    }
}

pub fn owner(r: Reader, k: usize) -> usize {
    if k < 16 { r.owner[k] as usize } else { 255 }
}

fn owned(r: Reader, k: usize, node: usize) -> Reader {
    let mut next = r;
    if k < 16 {
        next.owner[k] = small(node);
    }
    next
}

fn opened(r: Reader, k: usize) -> Reader {
    let d = r.depth;
    let nodes = r.nodes;
    let mut next = r;
    if d < 16 {
        next.byte[d] = small(k);
        next.before[d] = small(nodes.n);
        next.depth = d + 1;
    }
    next
}

fn unpaired(r: Reader, k: usize) -> Reader {
    let nodes = r.nodes;
    let mut next = owned(r, k, nodes.n);
    next.nodes = with_kind(with_node(nodes, nodes.n), nodes.n, UNPAIRED_BASE);
    next
}

fn closed(r: Reader, k: usize) -> Reader {
    let d = r.depth;
    if d < 1 || 16 < d {
        return r;
    }
    let nodes = r.nodes;
    let byte = r.byte[d - 1] as usize;
    let before = r.before[d - 1] as usize;
    let mut next = owned(owned(r, k, nodes.n), byte, nodes.n);
    next.nodes = with_kind(with_node(nodes, before), nodes.n, BASE_PAIR);
    next.depth = d - 1;
    next
}

fn stepped(r: Reader, k: usize, byte: u8) -> Reader {
    if opens(byte) {
        return opened(r, k);
    }
    if closes(byte) {
        return closed(r, k);
    }
    unpaired(r, k)
}

// The added root above all top items.
fn with_root(nodes: Nodes) -> Nodes {
    with_kind(with_node(nodes, 0), nodes.n, ADDED_ROOT)
}

/// Reads a text that is known to be a structure.
pub fn reading(text: &[u8]) -> Reader {
    let mut r = start();
    for (k, &byte) in text.iter().enumerate() {
        r = stepped(r, k, byte);
    }
    r.nodes = with_root(r.nodes);
    r
}

pub fn nodes_of(text: &[u8]) -> Nodes {
    reading(text).nodes
}

/// Whether node i is a proper ancestor of node j: a walk from j up comes to i.
pub fn ancestor(t: Nodes, i: usize, j: usize) -> bool {
    let mut k = j;
    for _ in 0usize..16 {
        k = parent(t, k);
        if k == i {
            return true;
        }
    }
    false
}

/// Whether node i has no child.
pub fn leaf(t: Nodes, i: usize) -> bool {
    (0..16).all(|j| parent(t, j) != i)
}

/// The smallest number in the subtree of node i.
pub fn leftmost(t: Nodes, i: usize) -> usize {
    (0..16).find(|&j| ancestor(t, i, j)).unwrap_or(i)
}

/// A set of nodes.
#[derive(Clone, Copy)]
pub struct Set {
    pub has: [bool; 16],
}

pub fn none() -> Set {
    Set { has: [false; 16] }
}

pub fn has(s: Set, i: usize) -> bool {
    i < 16 && s.has[i]
}

pub fn with(s: Set, i: usize) -> Set {
    let mut next = s;
    if i < 16 {
        next.has[i] = true;
    }
    next
}

/// Whether every child of node i is in the set.
pub fn children_in(t: Nodes, s: Set, i: usize) -> bool {
    (0..16).all(|j| parent(t, j) != i || has(s, j))
}
