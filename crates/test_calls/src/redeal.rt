//! A deck written, opened, and written again.

use super::changes::handed_over;
use answer::Refusal;
use chain::Session;
use test_words::plain::part;

/// What opening the deck answers, its length, its session, and whether that is written with the same bytes.
#[derive(Clone, Copy)]
pub struct Reopened {
    pub answer: Result<(), Refusal>,
    pub length: usize,
    pub session: Session,
    pub same: bool,
}

fn opened(q: &[u8], t: &[u8], deck: &[u8], out: &mut [u8]) -> Reopened {
    let opened = handed_over(chain::open_deck(q, t, deck));
    let session = opened.session;
    let length = session.write_deck(out).unwrap_or(0);
    Reopened {
        answer: opened.answer,
        length: deck.len(),
        session,
        same: deck == part(out, 0, length),
    }
}

pub fn redealt(
    session: Session,
    q: &[u8],
    t: &[u8],
    first: &mut [u8],
    second: &mut [u8],
) -> Reopened {
    let length = session.write_deck(first).unwrap_or(0);
    opened(q, t, part(first, 0, length), second)
}
