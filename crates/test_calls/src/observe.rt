//! All that a session lets be seen: the best chain, the open areas in both orders and the row of each seed, and the deck.

use super::views::list;
use best::SCRATCH;
use chain::Session;
use itoa::Buffer;
use test_words::plain::{part, put, put_all};

// What stands in place of what a refused call does not show.
const REFUSED: u8 = 170;

fn put_flags(out: &mut [u8], at: usize, chain: [bool; 64]) -> usize {
    let mut end = at;
    for &there in &chain {
        end = put(out, end, u8::from(there));
    }
    end
}

fn put_total(out: &mut [u8], at: usize, total: u64) -> usize {
    let mut digits = Buffer::new();
    put_all(out, at, digits.format(total).as_bytes())
}

fn put_best(session: Session, out: &mut [u8]) -> usize {
    let mut scratch = [0u64; SCRATCH];
    match session.best_chain(&mut scratch) {
        Ok(best) => {
            let end = put_flags(out, 0, best.chain);
            put_total(out, end, best.total)
        }
        Err(_) => put(out, 0, REFUSED),
    }
}

fn put_deck(session: Session, out: &mut [u8], at: usize) -> usize {
    let mut deck = [0u8; 4484];
    match session.write_deck(&mut deck) {
        Ok(length) => put_all(out, at, part(&deck, 0, length)),
        Err(_) => put(out, at, REFUSED),
    }
}

fn put_areas(session: Session, number: usize, paper: bool, out: &mut [u8], at: usize) -> usize {
    let mut areas = [255u8; 1024];
    // A refused listing leaves the bytes, which are no area.
    let _ = list(session, number, paper, &mut areas);
    put_all(out, at, &areas)
}

// What stands in the row of a seed beside its score, which the deck and the best chain show.
fn put_row(session: Session, number: usize, out: &mut [u8], at: usize) -> usize {
    match session.row(number) {
        Ok(row) => {
            let q = put(out, at, row.last.q);
            let t = put(out, q, row.last.t);
            let present = put(out, t, u8::from(row.present));
            put_total(out, present, row.pairs as u64)
        }
        Err(_) => put(out, at, REFUSED),
    }
}

fn put_seed(session: Session, number: usize, out: &mut [u8], at: usize) -> usize {
    let end = put_areas(session, number, false, out, at);
    let last = put_areas(session, number, true, out, end);
    put_row(session, number, out, last)
}

// The areas and the rows of the seeds 1 to 8.
fn put_all_seeds(session: Session, out: &mut [u8], at: usize) -> usize {
    let mut end = at;
    for number in 1..9 {
        end = put_seed(session, number, out, end);
    }
    end
}

fn observe(session: Session, out: &mut [u8]) {
    let best = put_best(session, out);
    let deck = put_deck(session, out, best);
    put_all_seeds(session, out, deck);
}

/// Whether two sessions look the same.
pub fn alike(a: Session, b: Session, first: &mut [u8], second: &mut [u8]) -> bool {
    observe(a, first);
    observe(b, second);
    *first == *second
}
