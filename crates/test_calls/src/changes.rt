//! The calls that hand over a session, as a script names them.
ghost use Rattle.chain.specs.Opening.{opened};

use chain::{Added, Changed, RefusedOpening, Session};
use seed::Pair;
use test_lent::PairList;
use test_words::answers::with_answer;
use test_words::line::{after_score, next, number, number_or, pairs_at, score, structure};
use test_words::plain::part;
use test_words::spelled::put_hex;
use test_words::{Text, blank, with_spaced};

/// What an opening answers and the session that it hands over: beside a refusal that of "." and ".".
pub fn handed_over(opening: Result<Session, RefusedOpening>) -> Changed {
    match opening {
        Ok(session) => Changed {
            answer: Ok(()),
            session,
        },
        Err(refused) => Changed {
            answer: Err(refused.refusal),
            session: refused.session,
        },
    }
}

/// What a call answered in words, and the session that it handed over.
#[derive(Clone, Copy)]
pub struct Done {
    pub session: Session,
    pub text: Text,
}

fn said(changed: Changed) -> Done {
    Done {
        session: changed.session,
        text: with_answer(blank(), changed.answer),
    }
}

/// open Q T
pub fn open(s: &[u8], at: usize) -> Done {
    said(handed_over(chain::open(structure(s, at), structure(s, next(s, at)))))
}

// The session of a deck on the two texts at a place.
fn dealt(s: &[u8], at: usize, deck: &[u8]) -> Done {
    said(handed_over(chain::open_deck(structure(s, at), structure(s, next(s, at)), deck)))
}

/// deal Q T DECK [LENGTH]: the deck's bytes, with zeros behind them up to the length.
pub fn deal(s: &[u8], at: usize) -> Done {
    let mut deck = [0u8; 4608];
    let third = next(s, next(s, at));
    let n = put_hex(s, third, &mut deck, 0);
    let length = number_or(s, next(s, third), 0);
    dealt(s, at, part(&deck, 0, n.max(length)))
}

// An accepted add says the number that the seed got, too.
fn numbered(added: Added) -> Done {
    let answer = added.answer;
    let said = with_answer(blank(), answer);
    let text = match answer {
        Ok(number) => with_spaced(said, number),
        Err(_) => said,
    };
    Done {
        session: added.session,
        text,
    }
}

fn added(session: Session, qs: [u8; 64], ts: [u8; 64], n: usize, score: i32) -> Done {
    numbered(session.added(part(&qs, 0, n), part(&ts, 0, n), score))
}

/// add Q:T Q:T .. score SCORE
pub fn add(session: Session, s: &[u8], at: usize) -> Done {
    let p = pairs_at(s, at);
    added(session, p.qs, p.ts, p.count, score(s, after_score(s, at)))
}

// The pairs of two lists of nodes, to be lent as far as count: those behind them are 0:0.
fn lendable(qs: [u8; 64], ts: [u8; 64], count: usize) -> PairList {
    let mut pairs = [Pair { q: 0, t: 0 }; 1025];
    for i in 0..64 {
        pairs[i] = Pair { q: qs[i], t: ts[i] };
    }
    PairList { count, pairs }
}

/// add-lent Q:T Q:T .. score SCORE [LENGTH]: the pairs, with 0:0 behind them up to the length.
pub fn add_lent(session: Session, s: &[u8], at: usize) -> Done {
    let p = pairs_at(s, at);
    let last = after_score(s, at);
    let count = p.count.max(number_or(s, next(s, last), 0));
    numbered(test_lent::add_from(session, lendable(p.qs, p.ts, count), score(s, last)))
}

/// The seed is withdrawn, or brought back if it is to be present.
pub fn moved(session: Session, number: usize, to: bool) -> Changed {
    if to {
        return session.brought_back(number);
    }
    session.withdrawn(number)
}

/// withdraw NUMBER, and back NUMBER
pub fn move_to(session: Session, s: &[u8], at: usize, to: bool) -> Done {
    said(moved(session, number(s, at), to))
}

/// rescore NUMBER SCORE
pub fn rescore(session: Session, s: &[u8], at: usize) -> Done {
    said(session.rescored(number(s, at), score(s, next(s, at))))
}

/// rescore-lent NUMBER SCORE
pub fn rescore_lent(session: Session, s: &[u8], at: usize) -> Done {
    said(test_lent::rescore_by_reference(session, number(s, at), score(s, next(s, at))))
}
