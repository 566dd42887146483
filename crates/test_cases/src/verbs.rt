//! The words that name the calls.

use super::groups::{every, random};
use chain::Session;
use test_calls::changes::{Done, add, add_lent, deal, move_to, open, rescore, rescore_lent};
use test_calls::reports::{exported, report};
use test_calls::{example, panel, scores, views};
use test_words::line::{next, word};
use test_words::{Text, blank, with_bytes};

// A call on a score text or a number.
fn on_score(s: &[u8], at: usize) -> Text {
    let args = next(s, at);
    match word(s, at) {
        b"score" => scores::score(s, args),
        b"score-hex" => scores::score_hex(s, args),
        b"text" => scores::text(s, args),
        _ => with_bytes(blank(), b"no such call"),
    }
}

// A call that takes no session.
fn without_session(rt: &impl Print, s: &[u8], at: usize) -> Text {
    let args = next(s, at);
    match word(s, at) {
        b"stretch" => views::stretch(s, args),
        b"read" => views::read(s, args),
        b"report" => report(s, args),
        b"exported" => exported(s, args),
        b"random" => random(rt, s, args),
        b"every" => every(rt, s, args),
        b"example" => example::run(),
        b"panel" => panel::run(),
        _ => on_score(s, at),
    }
}

// A call that changes no session. The session's two texts stand at a place of their own.
fn looking(rt: &impl Print, session: Session, s: &[u8], at: usize, texts: usize) -> Text {
    let args = next(s, at);
    match word(s, at) {
        b"best" => views::best(session, s, args),
        b"areas" => views::areas(session, s, args, false),
        b"areas-paper" => views::areas(session, s, args, true),
        b"deck" => views::deck(session, s, args),
        b"row" => views::row(session, s, args),
        b"redeal" => views::redeal(session, s, texts),
        _ => without_session(rt, s, at),
    }
}

/// Whether the call hands over a session of its own.
pub fn opens(s: &[u8], at: usize) -> bool {
    matches!(word(s, at), b"open" | b"deal")
}

fn call(rt: &impl Print, session: Session, s: &[u8], at: usize, texts: usize) -> Done {
    let args = next(s, at);
    match word(s, at) {
        b"open" => open(s, args),
        b"deal" => deal(s, args),
        b"add" => add(session, s, args),
        b"add-lent" => add_lent(session, s, args),
        b"withdraw" => move_to(session, s, args, false),
        b"back" => move_to(session, s, args, true),
        b"rescore" => rescore(session, s, args),
        b"rescore-lent" => rescore_lent(session, s, args),
        _ => Done {
            session,
            text: looking(rt, session, s, at, texts),
        },
    }
}

/// The call so many times, and at least once: what the last one answers.
pub fn called(
    rt: &impl Print,
    session: Session,
    s: &[u8],
    at: usize,
    texts: usize,
    times: usize,
) -> Done {
    let mut done = call(rt, session, s, at, texts);
    for _ in 1..times {
        let later = done.session;
        done = call(rt, later, s, at, texts);
    }
    done
}
