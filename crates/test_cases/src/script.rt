//! A script of cases: each line is a call and, behind "=", what it must answer.

use super::verbs::{called, opens};
use chain::Session;
use queue::Queue;
use test_calls::changes::handed_over;
use test_calls::observe::alike;
use test_calls::queues;
use test_words::line::{line_end, next, number, sign, word};
use test_words::plain::{byte_at, more, part};
use test_words::{Text, begins, blank, is, print, print_bytes, with_bytes, with_number};

// Where a script stands: the session, where in the script the session's two texts and the name of the case are, and what is
// counted; `bad` is whether a call of the case was wrong.
#[derive(Clone, Copy)]
struct State {
    session: Session,
    texts: usize,
    name: usize,
    calls: usize,
    cases: usize,
    wrong: usize,
    bad: bool,
}

// How often the call of a line is to be made, and where it begins: times NUMBER CALL.
fn times(s: &[u8], at: usize) -> usize {
    if matches!(word(s, at), b"times") {
        return number(s, next(s, at));
    }
    1
}

fn begin(s: &[u8], at: usize) -> usize {
    if matches!(word(s, at), b"times") {
        return next(s, next(s, at));
    }
    at
}

// Whether a refused call left the session as it was. An opening hands over a session of its own.
fn kept(session: Session, later: Session, s: &[u8], at: usize, text: Text) -> bool {
    if opens(s, at) || !begins(text, b'r') {
        return true;
    }
    let mut first = [0u8; 32768];
    let mut second = [0u8; 32768];
    alike(session, later, &mut first, &mut second)
}

fn print_wrong(rt: &impl Print, s: &[u8], name: usize, at: usize, text: Text) {
    print_bytes(rt, b"case ");
    print_bytes(rt, part(s, name, line_end(s, name)));
    print_bytes(rt, b": WRONG: ");
    print_bytes(rt, part(s, at, sign(s, at)));
    print_bytes(rt, b"gave ");
    print(rt, text);
    print_bytes(rt, b", and not ");
    print_bytes(rt, expected(s, at));
    print_bytes(rt, b"\n");
}

fn print_case(rt: &impl Print, s: &[u8], name: usize) {
    print_bytes(rt, b"case ");
    print_bytes(rt, part(s, name, line_end(s, name)));
    print_bytes(rt, b": ok\n");
}

// The text that a line expects.
fn expected(s: &[u8], at: usize) -> &[u8] {
    part(s, more(more(sign(s, at))), line_end(s, at))
}

// Holds what a call answered to what its line says, and prints it if it is something else.
fn is_right(rt: &impl Print, s: &[u8], name: usize, at: usize, text: Text) -> bool {
    let right = is(text, expected(s, at));
    if !right {
        print_wrong(rt, s, name, at, text);
    }
    right
}

// Another session, and where its texts stand.
fn with_session(state: State, session: Session, texts: usize) -> State {
    let mut next = state;
    next.session = session;
    next.texts = texts;
    next
}

// Makes the call of a line on the session.
fn judged(rt: &impl Print, state: State, s: &[u8], at: usize) -> State {
    let session = state.session;
    let texts = state.texts;
    let name = state.name;
    let from = begin(s, at);
    let turns = times(s, at);
    let done = called(rt, session, s, from, texts, turns);
    let later = done.session;
    let mut text = done.text;
    if turns == 1 && !kept(session, later, s, from, text) {
        text = with_bytes(text, b", session changed");
    }
    let right = is_right(rt, s, name, at, text);
    counted(with_session(state, later, placed(s, from, texts)), right)
}

// Makes the call of a line on the queue.
fn queue_judged(rt: &impl Print, state: State, queue: &mut Queue, s: &[u8], at: usize) -> State {
    let turns = times(s, at);
    let before = queue.copied();
    let mut text = queues::called(queue, s, begin(s, at), turns);
    if turns == 1 && !queues::kept(&before, queue, text) {
        text = with_bytes(text, b", queue changed");
    }
    let right = is_right(rt, s, state.name, at, text);
    counted(state, right)
}

// Where the session's texts stand after a call.
fn placed(s: &[u8], at: usize, texts: usize) -> usize {
    if opens(s, at) {
        return next(s, at);
    }
    texts
}

// One call more.
fn counted(state: State, right: bool) -> State {
    let mut next = state;
    next.calls = more(state.calls);
    if !right {
        next.wrong = more(state.wrong);
        next.bad = true;
    }
    next
}

// Ends the case before, if there is one.
fn ended(rt: &impl Print, state: State, s: &[u8]) -> State {
    let mut next = state;
    if 0 < state.cases && !state.bad {
        print_case(rt, s, state.name);
    }
    next.cases = more(state.cases);
    next.bad = false;
    next
}

fn named(rt: &impl Print, state: State, s: &[u8], at: usize) -> State {
    let name = next(s, at);
    let mut later = ended(rt, state, s);
    later.name = name;
    later
}

fn line(rt: &impl Print, state: State, queue: &mut Queue, s: &[u8], at: usize) -> State {
    if byte_at(s, at) == b'\n' || byte_at(s, at) == b'#' {
        return state;
    }
    if matches!(word(s, at), b"case") {
        return named(rt, state, s, at);
    }
    if queues::is_call(s, begin(s, at)) {
        return queue_judged(rt, state, queue, s, at);
    }
    judged(rt, state, s, at)
}

fn lines(rt: &impl Print, state: State, queue: &mut Queue, s: &[u8]) -> State {
    let mut now = state;
    let mut at = 0;
    // Tried: `for bytes in s.split_inclusive(..)`, whose invariant the check cannot state beside the lifetimes of `s` and `rt`.
    while at < s.len() {
        let end = line_end(s, at);
        if end < at || s.len() <= end {
            return now;
        }
        now = line(rt, now, queue, s, at);
        at = end + 1;
    }
    now
}

/// Runs a script and prints what came of it.
pub fn run(rt: &impl Print, s: &[u8]) {
    let session = handed_over(chain::open(b".", b".")).session;
    let state = lines(
        rt,
        State {
            session,
            texts: 0,
            name: 0,
            calls: 0,
            cases: 0,
            wrong: 0,
            bad: false,
        },
        &mut queue::start(),
        s,
    );
    let cases = state.cases;
    let calls = state.calls;
    let wrong = state.wrong;
    ended(rt, state, s);
    print_counts(rt, cases, calls, wrong);
}

fn print_counts(rt: &impl Print, cases: usize, calls: usize, wrong: usize) {
    let counted = with_bytes(with_number(blank(), cases), b" cases, ");
    let called = with_bytes(with_number(counted, calls), b" calls, ");
    print(rt, with_bytes(with_number(called, wrong), b" wrong\n"));
}
