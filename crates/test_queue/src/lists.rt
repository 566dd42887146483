//! Random lists of calls: each answer of the library is held to the definition, and each wait to how long it may be.
use super::calls::{Call, any_mixture, drawn, next};
use super::definition::{
    NONE, ORDINARY, PLACES, Taken, URGENT, Waiting, due, ground, nobody, offered, turned,
    urgent_waits,
};
use super::waits::{Served, nobody_served, with_offer, with_turn};
use answer::{Place, Refusal};
use queue::{Kind, Queue};
use test_random::draw;
use test_random::tally::{Count, with_count};
use test_words::{blank, print, with_bytes};

// The library's queue, what waits in it by the definition, and what is counted.
#[derive(Drop)]
struct Play {
    queue: Queue,
    waiting: Waiting,
    served: Served,
}

fn kind_named(kind: u8) -> Kind {
    if kind == URGENT {
        return Kind::Urgent;
    }
    Kind::Ordinary
}

fn number_of(kind: Kind) -> u8 {
    match kind {
        Kind::Urgent => URGENT,
        Kind::Ordinary => ORDINARY,
    }
}

// Whether an offer is answered with this ground, or 0, and no place.
fn offer_right(answer: Result<(), Refusal>, ground: usize) -> bool {
    match answer {
        Ok(()) => ground == 0,
        Err(refusal) => refusal.ground.number() == ground && refusal.place == Place::Nothing,
    }
}

// Whether a turn took what is due: the kind and both numbers.
fn turn_right(turn: Option<queue::Taken>, taken: Taken) -> bool {
    match turn {
        None => taken.kind == NONE,
        Some(took) => {
            number_of(took.kind) == taken.kind
                && took.job.query == taken.job.query
                && took.job.structure == taken.job.structure
        }
    }
}

fn offer(rt: &impl Print, p: &mut Play, call: Call) {
    let ground = ground(p.waiting);
    let answer = p
        .queue
        .offer(kind_named(call.kind), call.query, call.structure);
    p.waiting = offered(p.waiting, call.kind, call.query, call.structure);
    p.served = with_offer(rt, p.served, ground, offer_right(answer, ground));
}

fn take(rt: &impl Print, p: &mut Play) {
    let waiting = p.waiting;
    let taken = due(waiting);
    let right = turn_right(p.queue.take_turn(), taken);
    p.waiting = turned(waiting);
    p.served = with_turn(
        rt,
        p.served,
        taken,
        waiting.turns,
        urgent_waits(waiting),
        right,
    );
}

// One list of 0 to 200 calls from the start, and then turns until nobody waits and one more: so every job that still waits is looked at.
fn list(rt: &impl Print, served: Served, state: &mut u64) -> Served {
    let calls = draw(state, 201);
    let mut p = Play {
        queue: queue::start(),
        waiting: nobody(),
        served,
    };
    let mut m = any_mixture(state, calls);
    for _ in 0..calls {
        let call = drawn(m, state);
        if call.kind == NONE {
            take(rt, &mut p);
        } else {
            offer(rt, &mut p, call);
        }
        m = next(m, state);
    }
    for _ in 0..PLACES + 1 {
        take(rt, &mut p);
    }
    p.served
}

fn print_if_wrong(rt: &impl Print, before: Count, after: Count, number: usize) {
    if before.wrong < after.wrong {
        print(
            rt,
            with_count(with_bytes(blank(), b"  in list "), number, b"\n"),
        );
    }
}

pub fn lists(rt: &impl Print, cases: usize, seed: u64) -> Served {
    let mut state = seed;
    let mut served = nobody_served();
    for number in 0..cases {
        let before = served.count;
        served = list(rt, served, &mut state);
        let after = served.count;
        print_if_wrong(rt, before, after, number);
    }
    served
}
