//! The open areas that a seed's listing has, held to the definition: each fitting pair is in just one box, no other pair is in one, each box
//! is as large as can be, and they stand by rising a; and whether another listing has the same boxes.
use super::seeds::{List, Trees, fits};
use test_words::plain::{fourfold, less, more, part, wide, within};

fn number(boxes: &[u8], at: usize) -> usize {
    boxes.get(at).map_or(255, |&node| wide(node))
}

// Whether a node is in the side of a box that stands at a place.
fn in_side(boxes: &[u8], at: usize, i: usize) -> bool {
    within(number(boxes, at), number(boxes, more(at)), i)
}

// How many boxes have the pair of i and j.
fn boxes_of(boxes: &[u8], count: usize, i: usize, j: usize) -> usize {
    let mut n = 0;
    for k in 0..count {
        let at = fourfold(k);
        if in_side(boxes, at, i) && in_side(boxes, more(more(at)), j) {
            n = more(n);
        }
    }
    n
}

fn once(trees: Trees, seed: List, i: usize, j: usize) -> usize {
    if fits(trees, seed, i, j) { 1 } else { 0 }
}

fn row_right(trees: Trees, seed: List, boxes: &[u8], count: usize, i: usize) -> bool {
    (0..12).all(|j| boxes_of(boxes, count, i, j) == once(trees, seed, i, j))
}

fn rows_right(trees: Trees, seed: List, boxes: &[u8], count: usize) -> bool {
    (0..12).all(|i| row_right(trees, seed, boxes, count, i))
}

// Whether all pairs of node i of Q with the nodes c to d of T fit.
fn row_fits(trees: Trees, seed: List, i: usize, c: usize, d: usize) -> bool {
    (c..16).all(|j| d < j || fits(trees, seed, i, j))
}

fn column_fits(trees: Trees, seed: List, a: usize, b: usize, j: usize) -> bool {
    (a..16).all(|i| b < i || fits(trees, seed, i, j))
}

// The node before, and one in no tree before the first.
fn before(i: usize) -> usize {
    if 0 < i { i - 1 } else { 255 }
}

// Whether a box could be larger by a row or a column.
fn grows(trees: Trees, seed: List, boxes: &[u8], at: usize) -> bool {
    let a = number(boxes, at);
    let b = number(boxes, more(at));
    let c = number(boxes, more(more(at)));
    let d = number(boxes, more(more(more(at))));
    row_fits(trees, seed, before(a), c, d)
        || row_fits(trees, seed, more(b), c, d)
        || column_fits(trees, seed, a, b, before(c))
        || column_fits(trees, seed, a, b, more(d))
}

fn all_largest(trees: Trees, seed: List, boxes: &[u8], count: usize) -> bool {
    (0..count).all(|k| !grows(trees, seed, boxes, fourfold(k)))
}

/// Whether boxes stand by rising a.
pub fn rises(boxes: &[u8], count: usize) -> bool {
    (1..count).all(|k| number(boxes, fourfold(less(k))) < number(boxes, fourfold(k)))
}

// The box at a place of a list.
fn box_at(boxes: &[u8], k: usize) -> &[u8] {
    part(boxes, fourfold(k), fourfold(more(k)))
}

// Whether a list has a box.
fn has_box(boxes: &[u8], count: usize, wanted: &[u8]) -> bool {
    (0..count).any(|k| box_at(boxes, k) == wanted)
}

/// Whether each of so many boxes is in another list that is as long.
pub fn same_boxes(boxes: &[u8], count: usize, others: &[u8]) -> bool {
    boxes.len() == others.len() && (0..count).all(|k| has_box(others, count, box_at(boxes, k)))
}

/// Whether these are the open areas of a seed, all of them.
pub fn areas_right(trees: Trees, seed: List, boxes: &[u8], count: usize) -> bool {
    rises(boxes, count)
        && rows_right(trees, seed, boxes, count)
        && all_largest(trees, seed, boxes, count)
}
