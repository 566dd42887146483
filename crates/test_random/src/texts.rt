//! Random texts, and all texts of one byte and of two, held to grounds 1 to 4 and 24 and to the leftmost leaves and the kinds of their nodes.
use super::samples::{Sample, bytes_of, empty, flawed, scrawl, structure, with_letter};
use super::tally::{Count, counted, none, print_sample};
use answer::{Place, Refusal};
use test_brute::nodes::{Nodes, kind, leftmost, nodes_of};
use test_brute::texts::{Verdict, judge};
use test_words::plain::{byte_at, less, small, wide};
use tree::Tree;

// Whether a tree that was read has these nodes: the leftmost leaf of each, and the kind of each below the added root, which is the last.
fn is_tree_of(tree: Tree, nodes: Nodes) -> bool {
    let leaves = tree.leaves();
    let kinds = tree.kinds();
    tree.node_count() == nodes.n
        && (0..nodes.n).all(|i| wide(byte_at(leaves, i)) == leftmost(nodes, i))
        && (0..less(nodes.n)).all(|i| byte_at(kinds, i) == kind(nodes, i))
}

// Whether a refusal is what a verdict asks for.
fn is_refusal(refusal: Refusal, v: Verdict) -> bool {
    refusal.ground.number() == v.ground && refusal.place == Place::ByteInQ(v.at)
}

// Whether a text that is refused is so in the calls on a stretch too, with no part of it handed back.
fn stretch_refused(s: &[u8], v: Verdict) -> bool {
    match stretch::check(s, 0, 0) {
        Ok(()) => false,
        Err(refusal) => is_refusal(refusal, v) && stretch::part(s, 0, 0).is_empty(),
    }
}

// Beside a refusal stands the tree of ".".
fn read_right(s: &[u8]) -> bool {
    match (tree::read(s), judge(s)) {
        (Ok(tree), None) => is_tree_of(tree, nodes_of(s)),
        (Err(refused), Some(v)) => {
            is_refusal(refused.refusal, v)
                && is_tree_of(refused.tree, nodes_of(b"."))
                && stretch_refused(s, v)
        }
        _ => false,
    }
}

// One random text: every other one is a structure, and of the others every other one a flawed one.
fn text(state: &mut u64, k: usize) -> Sample {
    match k % 4 {
        0 => scrawl(state),
        2 => flawed(state),
        _ => structure(state),
    }
}

fn ground_of(s: &[u8]) -> usize {
    judge(s).map_or(0, |v| v.ground)
}

fn one(rt: &impl Print, count: Count, sample: Sample) -> Count {
    let text = bytes_of(&sample);
    let right = read_right(text);
    let next = counted(rt, count, ground_of(text), right);
    if !right {
        print_sample(rt, b"  in the text ", sample);
    }
    next
}

pub fn texts(rt: &impl Print, cases: usize, seed: u64) -> Count {
    let mut state = seed;
    let mut count = none();
    for k in 0..cases {
        let sample = text(&mut state, k);
        count = one(rt, count, sample);
    }
    count
}

/// All texts of one byte.
pub fn all_bytes(rt: &impl Print) -> Count {
    let mut count = none();
    for a in 0..256 {
        count = one(rt, count, with_letter(empty(), small(a)));
    }
    count
}

// All texts of two bytes that begin with one.
fn all_behind(rt: &impl Print, count: Count, first: Sample) -> Count {
    let mut next = count;
    for b in 0..256 {
        next = one(rt, next, with_letter(first, small(b)));
    }
    next
}

/// All texts of two bytes.
pub fn all_two_bytes(rt: &impl Print) -> Count {
    let mut count = none();
    for a in 0..256 {
        count = all_behind(rt, count, with_letter(empty(), small(a)));
    }
    count
}
