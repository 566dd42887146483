//! The two calls on open areas for a comparison in Rust: each opens a session on two texts and a deck and lists the areas of one of its seeds.
#![tactic(auto)]

use answer::Refusal;
use chain::{Session, open_deck};
use test_words::signed::with_sign;

// How many areas were listed, or the ground below 0.
fn coded(listed: Result<usize, Refusal>) -> i64 {
    match listed {
        Ok(count) => with_sign(false, count),
        Err(refusal) => with_sign(true, refusal.ground.number()),
    }
}

fn listed(session: Session, number: usize, paper: bool, out: &mut [u8]) -> Result<usize, Refusal> {
    if paper {
        return session.areas_in_paper_order(number, out);
    }
    session.areas(number, out)
}

// The areas of a seed of a deck. An opening that is refused lists nothing.
fn areas_of_deck(
    q: &[u8],
    t: &[u8],
    deck: &[u8],
    number: usize,
    paper: bool,
    out: &mut [u8],
) -> Result<usize, Refusal> {
    let session = open_deck(q, t, deck)?;
    listed(session, number, paper, out)
}

/// By rising a.
pub fn gurandyo_test_areas(q: &[u8], t: &[u8], deck: &[u8], number: usize, out: &mut [u8]) -> i64 {
    coded(areas_of_deck(q, t, deck, number, false, out))
}

/// In the paper's order of work.
pub fn gurandyo_test_areas_in_paper_order(
    q: &[u8],
    t: &[u8],
    deck: &[u8],
    number: usize,
    out: &mut [u8],
) -> i64 {
    coded(areas_of_deck(q, t, deck, number, true, out))
}
