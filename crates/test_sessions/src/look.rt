//! What a random session lets be seen, held to its table and to the definitions: the best chain, the open areas in both orders and the row of a
//! seed, and the deck.

use super::play::Play;
use answer::Refusal;
use best::{Best, SCRATCH};
use chain::Session;
use test_brute::areas::{areas_right, rises, same_boxes};
use test_brute::paper::in_order_of_work;
use test_brute::seeds::{List, Trees, last};
use test_brute::table as brute;
use test_brute::table::{Choice, Table, has, is_present};
use test_calls::redeal::redealt;
use test_random::tally::{Count, Seen, marked, with_areas};
use test_words::plain::{all_are, fourfold, more, part};

// Whether a chain answered has the seeds of a set and no other.
fn chain_is(chain: [bool; 64], set: usize) -> bool {
    chain
        .iter()
        .enumerate()
        .all(|(i, &there)| there == has(set, i))
}

fn best_right(best: Result<Best, Refusal>, choice: Choice) -> bool {
    match best {
        Ok(best) => {
            1000 <= choice.worth
                && best.total == (choice.worth - 1000) as u64
                && chain_is(best.chain, choice.set)
        }
        Err(_) => false,
    }
}

fn with_choice(s: Seen, choice: Choice) -> Seen {
    let mut next = s;
    next.chains = more(s.chains);
    if 1 < choice.set.count_ones() {
        next.longer = more(s.longer);
    }
    if 1 < choice.ties {
        next.ties = more(s.ties);
    }
    next
}

// The same session, with other counts.
fn noted(p: Play, seen: Seen, count: Count) -> Play {
    let mut next = p;
    next.seen = seen;
    next.count = count;
    next
}

// The best chain, whatever the scratch held.
fn best_of(session: Session) -> Result<Best, Refusal> {
    let mut scratch = [7u64; SCRATCH];
    session.best_chain(&mut scratch)
}

/// The best chain is compared.
pub fn best(rt: &impl Print, p: Play) -> Play {
    let session = p.session;
    let table = p.table;
    let seen = p.seen;
    let count = p.count;
    let choice = brute::best(table);
    let right = best_right(best_of(session), choice);
    noted(
        p,
        with_choice(seen, choice),
        marked(rt, count, right, b"a best chain"),
    )
}

// Whether the areas that a session lists of a seed are right, and those in the paper's order, how many there are, and whether they stand by rising
// a in that order too.
#[derive(Clone, Copy)]
struct Listing {
    right: bool,
    paper: bool,
    count: usize,
    rises: bool,
}

// Whether a listing in the paper's order is accepted, has so many areas, and leaves the bytes behind them.
fn as_many(listed: Result<usize, Refusal>, count: usize, out: &[u8]) -> bool {
    listed == Ok(count) && all_are(out, fourfold(count), 170)
}

// Whether its boxes are those of the order of work, and those that stand by rising a in the other listing.
fn work_right(trees: Trees, seed: List, boxes: &[u8], others: &[u8], count: usize) -> bool {
    if !same_boxes(others, count, boxes) {
        return false;
    }
    in_order_of_work(trees, seed, boxes)
}

fn listed_right(
    session: Session,
    number: usize,
    trees: Trees,
    seed: List,
    out: &mut [u8],
    paper: &mut [u8],
) -> Listing {
    let listed = session.areas(number, out);
    let worked = session.areas_in_paper_order(number, paper);
    let count = listed.unwrap_or(0);
    let many = as_many(worked, count, paper);
    let end = fourfold(count);
    let others = part(out, 0, end);
    let boxes = part(paper, 0, end);
    Listing {
        right: listed.is_ok() && areas_right(trees, seed, others, count),
        paper: many && work_right(trees, seed, boxes, others, count),
        count,
        rises: rises(boxes, count),
    }
}

fn listing_of(session: Session, trees: Trees, table: Table, i: usize) -> Listing {
    let mut out = [0u8; 1024];
    let mut paper = [170u8; 1024];
    listed_right(
        session,
        more(i),
        trees,
        brute::seed(table, i),
        &mut out,
        &mut paper,
    )
}

// Whether the row of the seed at a place is the table's.
fn row_right(session: Session, table: Table, i: usize) -> bool {
    let list = brute::seed(table, i);
    match session.row(more(i)) {
        Ok(row) => {
            row.last.q as usize == last(list.q)
                && row.last.t as usize == last(list.t)
                && row.pairs == list.q.count
                && row.present == is_present(table, i)
        }
        Err(_) => false,
    }
}

// Whether the row and the areas of a seed are right is counted.
fn with_seed(rt: &impl Print, c: Count, row: bool, l: Listing) -> Count {
    let rows = marked(rt, c, row, b"a row");
    let areas = marked(rt, rows, l.right, b"open areas");
    marked(rt, areas, l.paper, b"open areas in the paper's order")
}

/// The open areas and the row of the seed at a place of the table are compared, if there is one.
pub fn list_areas(rt: &impl Print, p: Play, i: usize) -> Play {
    let session = p.session;
    let table = p.table;
    let seen = p.seen;
    let count = p.count;
    if table.count <= i {
        return p;
    }
    let l = listing_of(session, p.trees, table, i);
    let row = row_right(session, table, i);
    noted(
        p,
        with_areas(seen, l.count, l.rises),
        with_seed(rt, count, row, l),
    )
}

// Whether the chains of a session and of its deck's have the same seeds: the deck has the present ones, in order.
fn chains_alike(t: Table, whole: [bool; 64], dealt: [bool; 64]) -> bool {
    let present = whole.iter().zip(t.present.iter()).filter(|seed| *seed.1);
    present
        .zip(dealt.iter())
        .all(|(seed, there)| *seed.0 == *there)
}

fn bests_alike(t: Table, whole: Result<Best, Refusal>, dealt: Result<Best, Refusal>) -> bool {
    match (whole, dealt) {
        (Ok(whole), Ok(dealt)) => {
            whole.total == dealt.total && chains_alike(t, whole.chain, dealt.chain)
        }
        _ => false,
    }
}

/// The deck is written, opened, and written again: the same bytes, and the same best chain.
pub fn deal(p: Play, q: &[u8], t: &[u8]) -> bool {
    let session = p.session;
    let table = p.table;
    let mut first = [0u8; 4484];
    let mut second = [0u8; 4484];
    let dealt = redealt(session, q, t, &mut first, &mut second);
    dealt.answer.is_ok()
        && dealt.same
        && bests_alike(table, best_of(session), best_of(dealt.session))
}
