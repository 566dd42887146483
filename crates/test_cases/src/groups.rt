//! The groups of random cases, all texts of a length, and all scores.
use test_nudges::moves::print_moves;
use test_nudges::nudges;
use test_queue::lists::lists;
use test_queue::waits::print_served;
use test_random::stretches::stretches;
use test_random::tally::{Count, print_count, print_seen, with_counts};
use test_random::texts::{all_bytes, all_two_bytes, texts};
use test_scores::all::all_scores;
use test_scores::numbers::score_numbers;
use test_scores::texts::score_texts;
use test_sessions::sessions;
use test_words::line::{next, number, word};
use test_words::{Text, blank, with_bytes, with_number};

fn wrong(c: Count) -> Text {
    with_bytes(with_number(blank(), c.wrong), b" wrong")
}

fn random_texts(rt: &impl Print, cases: usize, seed: usize) -> Text {
    let c = texts(rt, cases, seed as u64);
    print_count(rt, b"random texts: ", c);
    wrong(c)
}

fn random_stretches(rt: &impl Print, cases: usize, seed: usize) -> Text {
    let c = stretches(rt, cases, seed as u64);
    print_count(rt, b"random stretches: ", c);
    wrong(c)
}

fn random_sessions(rt: &impl Print, cases: usize, seed: usize) -> Text {
    let c = sessions(rt, cases, seed as u64);
    let count = c.count;
    let seen = c.seen;
    print_count(rt, b"random sessions: ", count);
    print_seen(rt, seen);
    wrong(count)
}

fn random_nudges(rt: &impl Print, cases: usize, seed: usize) -> Text {
    let all = nudges(rt, cases, seed as u64);
    let count = all.count;
    print_count(rt, b"random nudges: ", count);
    print_moves(rt, all);
    wrong(count)
}

fn random_scores(rt: &impl Print, cases: usize, seed: usize) -> Text {
    let c = score_texts(rt, cases, seed as u64);
    print_count(rt, b"random scores: ", c);
    wrong(c)
}

fn random_numbers(rt: &impl Print, cases: usize, seed: usize) -> Text {
    let c = score_numbers(rt, cases, seed as u64);
    print_count(rt, b"random numbers: ", c);
    wrong(c)
}

fn random_queue(rt: &impl Print, cases: usize, seed: usize) -> Text {
    let served = lists(rt, cases, seed as u64);
    let count = served.count;
    print_count(rt, b"random queue: ", count);
    print_served(rt, served);
    wrong(count)
}

/// random GROUP CASES SEED
pub fn random(rt: &impl Print, s: &[u8], at: usize) -> Text {
    let cases = next(s, at);
    let seed = next(s, cases);
    match word(s, at) {
        b"texts" => random_texts(rt, number(s, cases), number(s, seed)),
        b"stretches" => random_stretches(rt, number(s, cases), number(s, seed)),
        b"nudges" => random_nudges(rt, number(s, cases), number(s, seed)),
        b"scores" => random_scores(rt, number(s, cases), number(s, seed)),
        b"numbers" => random_numbers(rt, number(s, cases), number(s, seed)),
        b"queue" => random_queue(rt, number(s, cases), number(s, seed)),
        _ => random_sessions(rt, number(s, cases), number(s, seed)),
    }
}

/// every LENGTH: all texts of one byte, or of two. every score: all scores, written and read back.
pub fn every(rt: &impl Print, s: &[u8], at: usize) -> Text {
    if matches!(word(s, at), b"score") {
        return with_counts(blank(), all_scores(rt));
    }
    if number(s, at) == 1 {
        return with_counts(blank(), all_bytes(rt));
    }
    with_counts(blank(), all_two_bytes(rt))
}
