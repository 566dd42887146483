//! The calls of the queue, as a script names them, with what they answer in words.
use queue::{Kind, Queue, Taken};
use test_words::answers::with_answer;
use test_words::line::{next, number, word};
use test_words::plain::{from_u16, to_u16};
use test_words::{Text, begins, blank, with_bytes, with_spaced};

// Whether the call is one of the queue.
pub fn is_call(s: &[u8], at: usize) -> bool {
    check::same(word(s, at), b"queue")
        || check::same(word(s, at), b"offer")
        || check::same(word(s, at), b"turn")
}

fn with_kind(t: Text, kind: Kind) -> Text {
    match kind {
        Kind::Urgent => with_bytes(t, b"urgent"),
        Kind::Ordinary => with_bytes(t, b"ordinary"),
    }
}

/// The kind and both numbers of the job that a turn took.
pub fn with_turn(t: Text, taken: Option<Taken>) -> Text {
    match taken {
        None => with_bytes(t, b"none"),
        Some(taken) => {
            let first = with_spaced(with_kind(t, taken.kind), from_u16(taken.job.query));
            with_spaced(first, from_u16(taken.job.structure))
        }
    }
}

// queue: one is started, and a turn on another like it looks whether it is empty.
fn start(queue: &mut Queue) -> Text {
    *queue = queue::start();
    match queue::start().take_turn() {
        None => with_bytes(blank(), b"empty"),
        taken => with_turn(blank(), taken),
    }
}

fn kind_at(s: &[u8], at: usize) -> Kind {
    if check::same(word(s, at), b"urgent") {
        return Kind::Urgent;
    }
    Kind::Ordinary
}

// offer KIND QUERY STRUCTURE, by value
fn offer(queue: &mut Queue, s: &[u8], at: usize) -> Text {
    let query = next(s, at);
    let structure = next(s, query);
    let offered = queue.offered(
        kind_at(s, at),
        to_u16(number(s, query)),
        to_u16(number(s, structure)),
    );
    let answer = offered.answer;
    *queue = offered.queue;
    with_answer(blank(), answer)
}

// turn, by value
fn turn(queue: &mut Queue) -> Text {
    let turned = queue.turned();
    let taken = turned.taken;
    *queue = turned.queue;
    with_turn(blank(), taken)
}

fn call(queue: &mut Queue, s: &[u8], at: usize) -> Text {
    if check::same(word(s, at), b"queue") {
        return start(queue);
    }
    if check::same(word(s, at), b"offer") {
        return offer(queue, s, next(s, at));
    }
    turn(queue)
}

/// The call so many times, and at least once: what the last one answers.
pub fn called(queue: &mut Queue, s: &[u8], at: usize, times: usize) -> Text {
    let mut text = call(queue, s, at);
    for _ in 1..times {
        text = call(queue, s, at);
    }
    text
}

// Whether two queues let the same be seen: what turns take until nobody waits.
fn alike(first: &Queue, second: &Queue) -> bool {
    let mut a = *first;
    let mut b = *second;
    for _ in 0usize..17 {
        if a.take_turn() != b.take_turn() {
            return false;
        }
    }
    true
}

/// Whether a refused call left the queue as it was.
pub fn kept(queue: &Queue, later: &Queue, text: Text) -> bool {
    !begins(text, b'r') || alike(queue, later)
}
