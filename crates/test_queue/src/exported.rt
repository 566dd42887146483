//! The queue's calls for a comparison in Rust: a list of calls as bytes, and the answer to each.
use answer::Refusal;
use queue::{Kind, Queue, Taken};

// How many bytes a call has, and how many its answer.
const RECORD: usize = 5;

// What stands in an answer: one byte, and two numbers of 16 bits, each with its high byte first.
fn record(first: u8, query: u16, structure: u16) -> [u8; RECORD] {
    let query = query.to_be_bytes();
    let structure = structure.to_be_bytes();
    [first, query[0], query[1], structure[0], structure[1]]
}

fn number_of(kind: Kind) -> u8 {
    match kind {
        Kind::Urgent => 1,
        Kind::Ordinary => 2,
    }
}

fn of_offer(answer: Result<(), Refusal>) -> [u8; RECORD] {
    match answer {
        Ok(()) => record(0, 0, 0),
        Err(refusal) => record(refusal.ground.number() as u8, 0, 0),
    }
}

fn of_turn(taken: Option<Taken>) -> [u8; RECORD] {
    match taken {
        None => record(0, 0, 0),
        Some(taken) => record(number_of(taken.kind), taken.job.query, taken.job.structure),
    }
}

// Makes one call: 1 is an urgent offer, 2 an ordinary one, any other a turn.
fn called(queue: &mut Queue, way: u8, query: u16, structure: u16) -> [u8; RECORD] {
    match way {
        1 => of_offer(queue.offer(Kind::Urgent, query, structure)),
        2 => of_offer(queue.offer(Kind::Ordinary, query, structure)),
        _ => of_turn(queue.take_turn()),
    }
}

/// From a started queue, each call whose five bytes are whole, as long as the output has room for its answer: which call, then the query's and the
/// structure's number, high byte first. An answer is the ground's number and zeros, or what the turn took. It returns how many calls were made.
pub fn gurandyo_test_queue(calls: &[u8], out: &mut [u8]) -> usize {
    let whole = (calls.len() / RECORD).min(out.len() / RECORD);
    let mut queue = queue::start();
    for k in 0..whole {
        let at = k * RECORD;
        let query = u16::from_be_bytes([calls[at + 1], calls[at + 2]]);
        let structure = u16::from_be_bytes([calls[at + 3], calls[at + 4]]);
        let answer = called(&mut queue, calls[at], query, structure);
        out[at..at + RECORD].copy_from_slice(&answer);
    }
    whole
}
