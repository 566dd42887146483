//! The calls that change no session, as a script names them: what they answer in words, with a remark where lent memory is not left as it
//! should be.

use super::redeal::redealt;
use answer::Refusal;
use best::{Best, SCRATCH};
use chain::Session;
use seed::Pair;
use table::Summary;
use test_words::answers::{with_answer, with_refusal};
use test_words::line::{next, number, number_or, structure};
use test_words::plain::{all_are, fourfold, less, more, part, wide};
use test_words::{Text, blank, with_byte, with_bytes, with_hex, with_number, with_spaced};
use tree::Tree;

fn with_numbers(t: Text, bytes: &[u8]) -> Text {
    let mut next = t;
    for &byte in bytes {
        next = with_spaced(next, wide(byte));
    }
    next
}

/// The text, with a remark if something is not right.
pub fn remarked(t: Text, right: bool, remark: &[u8]) -> Text {
    if right {
        return t;
    }
    with_bytes(t, remark)
}

fn with_chain(t: Text, chain: [bool; 64]) -> Text {
    let mut next = with_bytes(t, b" chain");
    for (i, &there) in chain.iter().enumerate() {
        if there {
            next = with_spaced(next, more(i));
        }
    }
    next
}

pub fn with_best(t: Text, best: Best) -> Text {
    let score = with_spaced(with_bytes(t, b"score"), best.total as usize);
    with_chain(score, best.chain)
}

/// Whether all numbers have one value.
pub fn all_words(s: &[u64], value: u64) -> bool {
    s.iter().all(|&word| word == value)
}

// A scratch of sevens is all zeros behind a best chain, and as it was beside a refusal.
fn best_on(session: Session, scratch: &mut [u64]) -> Text {
    match session.best_chain(scratch) {
        Ok(best) => remarked(
            with_best(blank(), best),
            all_words(scratch, 0),
            b", scratch not left so",
        ),
        Err(refusal) => remarked(
            with_refusal(blank(), refusal),
            all_words(scratch, 7),
            b", scratch not left so",
        ),
    }
}

/// The longest scratch that a script can name.
pub const LONGEST: usize = 5000;

/// best [SCRATCH]
pub fn best(session: Session, s: &[u8], at: usize) -> Text {
    let mut scratch = [7u64; LONGEST];
    let n = number_or(s, at, SCRATCH);
    if LONGEST < n {
        return blank();
    }
    best_on(session, &mut scratch[..n])
}

pub fn with_areas(t: Text, count: usize, bytes: &[u8]) -> Text {
    with_numbers(with_bytes(with_number(t, count), b" areas"), bytes)
}

/// The areas of a seed by rising a, or in the paper's order of work.
pub fn list(
    session: Session,
    number: usize,
    paper: bool,
    out: &mut [u8],
) -> Result<usize, Refusal> {
    if paper {
        return session.areas_in_paper_order(number, out);
    }
    session.areas(number, out)
}

fn areas_on(session: Session, number: usize, paper: bool, out: &mut [u8]) -> Text {
    let listed = list(session, number, paper, out);
    let end = fourfold(listed.unwrap_or(0));
    let text = match listed {
        Ok(count) => with_areas(blank(), count, part(out, 0, end)),
        Err(refusal) => with_refusal(blank(), refusal),
    };
    remarked(
        text,
        all_are(out, end, 170),
        b", more than the areas touched",
    )
}

/// areas NUMBER [ROOM], areas-paper NUMBER [ROOM]
pub fn areas(session: Session, s: &[u8], at: usize, paper: bool) -> Text {
    let mut out = [170u8; 1024];
    let room = number_or(s, next(s, at), 1024);
    if 1024 < room {
        return blank();
    }
    areas_on(session, number(s, at), paper, &mut out[..room])
}

pub fn with_deck(t: Text, bytes: &[u8]) -> Text {
    with_hex(with_bytes(t, b"deck "), bytes)
}

fn deck_on(session: Session, out: &mut [u8]) -> Text {
    let written = session.write_deck(out);
    let end = written.unwrap_or(0);
    let text = match written {
        Ok(length) => with_deck(blank(), part(out, 0, length)),
        Err(refusal) => with_refusal(blank(), refusal),
    };
    remarked(
        text,
        all_are(out, end, 170),
        b", more than the deck touched",
    )
}

/// deck [ROOM]
pub fn deck(session: Session, s: &[u8], at: usize) -> Text {
    let mut out = [170u8; 4608];
    let room = number_or(s, at, 4484);
    if 4608 < room {
        return blank();
    }
    deck_on(session, &mut out[..room])
}

/// A space and a score.
pub fn with_score(t: Text, score: i32) -> Text {
    let spaced = with_byte(t, b' ');
    let signed = if score < 0 {
        with_byte(spaced, b'-')
    } else {
        spaced
    };
    with_number(signed, score.unsigned_abs() as usize)
}

// A space and a pair.
fn with_pair(t: Text, pair: Pair) -> Text {
    with_number(with_byte(with_spaced(t, wide(pair.q)), b':'), wide(pair.t))
}

fn with_presence(t: Text, present: bool) -> Text {
    if present {
        return with_bytes(t, b" present");
    }
    with_bytes(t, b" withdrawn")
}

/// What a row says: the score, the last pair, how many pairs, and the presence.
pub fn with_row(t: Text, row: Summary) -> Text {
    let score = with_score(t, row.score);
    with_presence(
        with_spaced(with_pair(score, row.last), row.pairs),
        row.present,
    )
}

/// row NUMBER
pub fn row(session: Session, s: &[u8], at: usize) -> Text {
    let shown = session.row(number(s, at));
    let said = with_answer(blank(), shown);
    match shown {
        Ok(row) => with_row(said, row),
        Err(_) => said,
    }
}

/// redeal: the deck is written, opened on the two texts that stand at a place, and written again.
pub fn redeal(session: Session, s: &[u8], at: usize) -> Text {
    let mut first = [0u8; 4484];
    let mut second = [0u8; 4484];
    let r = redealt(
        session,
        structure(s, at),
        structure(s, next(s, at)),
        &mut first,
        &mut second,
    );
    let text = with_spaced(with_answer(blank(), r.answer), r.length);
    remarked(text, r.same, b", another deck")
}

/// stretch TEXT A B
pub fn stretch(s: &[u8], at: usize) -> Text {
    let text = structure(s, at);
    let a = next(s, at);
    let b = next(s, a);
    let said = with_answer(blank(), stretch::check(text, number(s, a), number(s, b)));
    let spelled = stretch::part(text, number(s, a), number(s, b));
    if spelled.is_empty() {
        return said;
    }
    with_bytes(with_byte(said, b' '), spelled)
}

// The leftmost leaf of each node, then the kind of each below the added root, which is the last.
fn with_tree(t: Text, tree: Tree) -> Text {
    let leaves = with_numbers(t, tree.leaves());
    with_numbers(with_bytes(leaves, b" kinds"), tree.kinds())
}

/// read TEXT
pub fn read(s: &[u8], at: usize) -> Text {
    match tree::read(structure(s, at)) {
        Ok(tree) => with_tree(with_bytes(blank(), b"accepted"), tree),
        Err(refused) => with_refusal(blank(), refused.refusal),
    }
}
