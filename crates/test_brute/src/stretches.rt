//! Stretches: the runs of nodes that are whole subtrees of neighbouring siblings, and the bytes that spell them.
use super::nodes::{Nodes, Reader, owner, parent};
use test_words::plain::{more, within};

// Whether a child of a node of the run stands outside it.
fn cut(t: Nodes, a: usize, b: usize) -> bool {
    (0..16).any(|i| within(a, b, parent(t, i)) && !within(a, b, i))
}

// Whether the nodes of the run whose parents stand outside it all have the parent p.
fn siblings(t: Nodes, a: usize, b: usize, p: usize) -> bool {
    (0..16).all(|i| !within(a, b, i) || within(a, b, parent(t, i)) || parent(t, i) == p)
}

/// Whether the nodes a to b are whole subtrees of neighbouring siblings, without the added root.
pub fn is_stretch(t: Nodes, a: usize, b: usize) -> bool {
    a <= b && more(b) < t.n && !cut(t, a, b) && siblings(t, a, b, parent(t, b))
}

/// Where the bytes of the nodes a to b begin, and where they end.
pub fn first_byte(r: Reader, a: usize, b: usize) -> usize {
    (0..16).find(|&k| within(a, b, owner(r, k))).unwrap_or(0)
}

pub fn last_byte(r: Reader, a: usize, b: usize) -> usize {
    let last = (0..16).rev().find(|&k| within(a, b, owner(r, k)));
    last.map_or(0, more)
}
