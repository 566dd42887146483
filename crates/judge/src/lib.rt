//! Judging a list of pairs that is to be a seed: grounds 15, 25 and 16 to 19, in time that grows with the nodes and the pairs.
#![tactic(auto)]

mod ancestry;
mod border;

ghost use Rattle.std.specs.Prelude.{◌≡◌, ◌&&◌};
ghost use Rattle.answer.specs.Refusal.{result_of};
ghost use Rattle.tree.specs.Nested.{Nested};
ghost use Rattle.seed.specs.Seed as seed;
ghost use Rattle.seed.specs.Pairs.{pairs_of};
ghost use Rattle.seed.specs.Tests as test;
ghost use Rattle.judge.specs.Judge.{pattern_answer, judge_on, judge_of};
ghost use Rattle.judge.specs.inner.Steps.{Risen, BothUnderLast};

use ancestry::alike;
use answer::{Ground, Place, Refusal};
use border::bordered;
use seed::{leaf_at, pair_count};
use tree::{Tree, kinds_with_root};

/// Whether each pair joins a node below n and a node below m.
fn nodes_in(n: usize, m: usize, qs: &[u8], ts: &[u8]) -> bool
    ensures { result ≡ test.every (test.node_in n m) (pairs_of qs.now ts.now) }
{
    qs.iter()
        .zip(ts)
        .all(|(q, t)| (*q as usize) < n && (*t as usize) < m)
}

/// Whether the nodes of each pair are of one kind.
fn same_kinds<'a>(kq: &'a [u8; 256], kt: &'a [u8; 256], qs: &[u8], ts: &[u8]) -> bool
    ensures { result ≡ test.every (test.same_kind kq.now kt.now) (pairs_of qs.now ts.now) }
{
    qs.iter()
        .zip(ts)
        .all(|(q, t)| kq[*q as usize] == kt[*t as usize])
}

/// Whether the nodes rise strictly.
fn rises(xs: &[u8]) -> bool
    ensures { result ≡ test.rises xs.now }
{
    xs.is_sorted_by(|x, next| *x < *next)
}

/// Whether the q and the t of the pairs both rise strictly.
fn both_rise(qs: &[u8], ts: &[u8]) -> bool
    ensures { result ≡ (test.rises (seed.qs (pairs_of qs.now ts.now)) && test.rises (seed.ts (pairs_of qs.now ts.now))) }
{
    let count = pair_count(qs, ts);
    rises(&qs[..count]) && rises(&ts[..count])
}

/// Whether the last pair is an ancestor of all others: its subtrees start at the first pair's nodes or before them.
fn rooted(lq: &[u8], lt: &[u8], qs: &[u8], ts: &[u8]) -> bool
    requires { Risen lq.now lt.now qs.now ts.now }
    ensures { result ≡ test.rooted lq.now lt.now (pairs_of qs.now ts.now) }
{
    let n = qs.len();
    if n == 0 {
        return true;
    }
    leaf_at(lq, qs[n - 1] as usize) <= qs[0] as usize
        && leaf_at(lt, ts[n - 1] as usize) <= ts[0] as usize
}

/// Whether every border node of both spans is in a pair.
fn both_bordered(lq: &[u8], lt: &[u8], qs: &[u8], ts: &[u8], tops: &mut [u8; 256]) -> bool
    requires { BothUnderLast lq.now lt.now qs.now ts.now }
    ensures { result ≡ (test.bordered lq.now (seed.qs (pairs_of qs.now ts.now)) && test.bordered lt.now (seed.ts (pairs_of qs.now ts.now))) }
{
    bordered(lq, qs, tops) && bordered(lt, ts, tops)
}

/// What is answered by 17 to 19 of a list whose nodes are in their trees and rise, its q and its t in two lists of one length.
fn judge_risen(lq: &[u8], lt: &[u8], qs: &[u8], ts: &[u8], number: usize) -> Result<(), Refusal>
    requires { Risen lq.now lt.now qs.now ts.now }
    ensures { result ≡ result_of (pattern_answer lq.now lt.now (pairs_of qs.now ts.now) number) tt }
{
    let place = Place::Seed(number);
    let mut places = [0u8; 256];
    if !alike(lq, lt, qs, ts, &mut places) {
        return Err(Ground::AncestryDiffers.at(place));
    }
    if !rooted(lq, lt, qs, ts) {
        return Err(Ground::LastNotAncestor.at(place));
    }
    if !both_bordered(lq, lt, qs, ts, &mut places) {
        return Err(Ground::BorderUnpaired.at(place));
    }
    Ok(())
}

/// What is answered of a list that is to be seed number `number` on the trees of two lists of leftmost leaves and two of kinds.
pub fn judge_on<'a>(
    lq: &[u8],
    lt: &[u8],
    kq: &'a [u8; 256],
    kt: &'a [u8; 256],
    qs: &[u8],
    ts: &[u8],
    number: usize,
) -> Result<(), Refusal>
    requires { (Nested lq.now) × (Nested lt.now) }
    ensures { result ≡ result_of (judge_on lq.now lt.now kq.now kt.now (pairs_of qs.now ts.now) number) tt }
{
    let place = Place::Seed(number);
    if !nodes_in(lq.len(), lt.len(), qs, ts) {
        return Err(Ground::OutsideTree.at(place));
    }
    if !same_kinds(kq, kt, qs, ts) {
        return Err(Ground::UnlikeNodes.at(place));
    }
    if !both_rise(qs, ts) {
        return Err(Ground::NotRising.at(place));
    }
    let count = pair_count(qs, ts);
    judge_risen(lq, lt, &qs[..count], &ts[..count], number)
}

/// What is answered of a list of pairs that is to be seed number `number` on two trees: accepted, or the first of the grounds 15, 25 and 16 to 19
/// that holds of it. The list goes as far as both its q and its t do.
pub fn judge(q: Tree, t: Tree, qs: &[u8], ts: &[u8], number: usize) -> Result<(), Refusal>
    ensures { result ≡ result_of (judge_of q t (pairs_of qs.now ts.now) number) tt }
{
    let kq = kinds_with_root(q);
    let kt = kinds_with_root(t);
    judge_on(q.leaves(), t.leaves(), &kq, &kt, qs, ts, number)
}
