//! The border of a list of nodes that rises and lies in the subtree of its last node (ground 19). The nodes are passed upwards; the tops are the
//! highest span nodes passed. An unlisted span node stands just behind its last child, and its children must be tops.
ghost use Rattle.std.specs.Prelude.{◌≡◌, ◌<◌, ◌≤◌, length};
ghost use Rattle.seed.specs.Tests as test;
ghost use Rattle.judge.specs.inner.Steps.{Cut, Ups, UnderLast, Joins, Reaching, Passing, Climbing, Passed};

use seed::leaf_at;

/// How many of the first `count` tops lie before a number: the others are below a node whose subtree starts there.
fn kept(tops: &[u8; 256], count: usize, low: usize) -> usize
    requires rising { Ups count tops.now }
    requires within { count ≤ 256 }
    ensures { Cut count tops.now low result }
{
    let mut left = count;
    while 0 < left && low <= tops[left - 1] as usize {
        left -= 1;
    }
    left
}

/// How many of the first `count` tops lie before the subtree of node x, if its children are tops, end to end. Its last child is the last top.
fn joined(l: &[u8], tops: &[u8; 256], count: usize, x: usize) -> Option<usize>
    requires some { 0 < count }
    requires within { count ≤ 256 }
    requires no_first { 0 < x }
    ensures { Joins l.now tops.now count x result }
{
    let low = leaf_at(l, x);
    let mut end = leaf_at(l, x - 1);
    let mut left = count - 1;
    // A `while`: how far a step goes hangs on the leaf of the top that it passes.
    while low < end {
        if left == 0 {
            return None;
        }
        let top = tops[left - 1] as usize;
        if top + 1 != end {
            return None;
        }
        end = leaf_at(l, top);
        left -= 1;
    }
    Some(left)
}

/// Whether the subtree of a node of a run starts at a node or before it. None ends the loop, so that many are looked at in one step.
fn reaches(l: &[u8], from: usize, to: usize, node: u8) -> bool
    requires run { from ≤ to }
    requires within { to ≤ length l.now }
    ensures { Reaching l.now from to node result }
{
    let mut found = false;
    let run = &l[from..to];
    for &leaf in run {
        found |= leaf <= node;
    }
    found
}

/// Passes the unlisted nodes behind the listed node at a place, the last top, up to the next listed one: those above it are in the span.
/// Answers how many tops there are then, unless a node of the span has a child outside it.
fn climb(l: &[u8], xs: &[u8], place: usize, tops: &mut [u8; 256], count: usize) -> Option<usize>
    requires { Climbing l.now xs.now place tops.old count }
    ensures { Passed l.now xs.now place tops.new result }
{
    let next = xs[place + 1] as usize;
    let mut x = xs[place] as usize + 1;
    let mut count = count;
    // A `while`: it ends at the first node whose subtree does not start before it.
    while x < next && leaf_at(l, x) < x {
        let left = joined(l, tops, count, x)?;
        tops[left] = x as u8;
        count = left + 1;
        x += 1;
    }
    if reaches(l, x, next, (x - 1) as u8) {
        return None;
    }
    Some(count)
}

/// Passes the listed node at a place and the unlisted ones up to the next listed one. The tops below the node are tops no more.
fn pass(l: &[u8], xs: &[u8], place: usize, tops: &mut [u8; 256], count: usize) -> Option<usize>
    requires { Passing l.now xs.now place tops.old count }
    ensures { Passed l.now xs.now place tops.new result }
{
    let left = kept(tops, count, leaf_at(l, xs[place] as usize));
    tops[left] = xs[place];
    climb(l, xs, place, tops, left + 1)
}

/// Whether every border node of the span is one of the list.
pub fn bordered(l: &[u8], xs: &[u8], tops: &mut [u8; 256]) -> bool
    requires { UnderLast l.now xs.now }
    ensures { result ≡ test.bordered l.now xs.now }
{
    let mut count = 0;
    for place in 1..xs.len() {
        let Some(kept) = pass(l, xs, place - 1, tops, count) else {
            return false;
        };
        count = kept;
    }
    true
}
