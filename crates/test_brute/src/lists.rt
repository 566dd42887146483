//! Lists of at most four pairs, with one pair more and with one less.
use super::seeds::{Column, List};
use test_words::plain::{less, small};

fn with_node(c: Column, i: usize) -> Column {
    let at = c.count;
    let mut next = c;
    if at < 4 {
        next.node[at] = small(i);
        next.count = at + 1;
    }
    next
}

fn without_last_node(c: Column) -> Column {
    let mut next = c;
    next.count = less(c.count);
    next
}

/// The list with a pair more, up to four, and without its last pair.
pub fn with_pair(l: List, i: usize, j: usize) -> List {
    List {
        q: with_node(l.q, i),
        t: with_node(l.t, j),
    }
}

pub fn without_last(l: List) -> List {
    List {
        q: without_last_node(l.q),
        t: without_last_node(l.t),
    }
}
