//! Random score texts, held to the definition: some as they are written, some damaged in one byte, some wild.
use super::definition::{judge, spelled};
use super::looks::is_read;
use super::numbers::any_below_a_million;
use test_random::draw;
use test_random::samples::{Sample, bytes_of, empty, letter_at, with_letter, with_letter_at};
use test_random::tally::{Count, counted, none, print_sample};
use test_words::plain::{byte_at, more, plus, small};

// A byte: mostly one of a score text or one that is often taken for it, now and then any.
fn byte(state: &mut u64) -> u8 {
    if draw(state, 8) == 0 {
        return small(draw(state, 256));
    }
    byte_at(b"-+0123456789., ", draw(state, 15))
}

// The size of a score, or one beyond the bounds.
fn size(state: &mut u64) -> usize {
    match draw(state, 5) {
        0 => draw(state, 110),
        1 => draw(state, 11000),
        2 => plus(999990, draw(state, 20)),
        3 => plus(any_below_a_million(state), any_below_a_million(state)),
        _ => any_below_a_million(state),
    }
}

// A text as it is written.
fn written(state: &mut u64) -> Sample {
    let minus = draw(state, 2) == 0;
    spelled(minus, size(state))
}

// The text with a byte put in before a place.
fn put_in(s: Sample, at: usize, byte: u8) -> Sample {
    let mut next = empty();
    for k in 0..12 {
        if k == at {
            next = with_letter(next, byte);
        }
        if k < s.len {
            next = with_letter(next, letter_at(s, k));
        }
    }
    next
}

// The text without the byte at a place.
fn taken_out(s: Sample, at: usize) -> Sample {
    let mut next = empty();
    for k in 0..12 {
        if k != at && k < s.len {
            next = with_letter(next, letter_at(s, k));
        }
    }
    next
}

// A text with one byte changed, put in or taken out.
fn damaged(state: &mut u64) -> Sample {
    let s = written(state);
    let at = draw(state, s.len);
    match draw(state, 3) {
        0 => with_letter_at(s, at, byte(state)),
        1 => {
            let before = draw(state, more(s.len));
            put_in(s, before, byte(state))
        }
        _ => taken_out(s, at),
    }
}

// Any bytes, 0 to 12 of them.
fn wild(state: &mut u64) -> Sample {
    let len = draw(state, 13);
    let mut s = empty();
    for _ in 0..len {
        s = with_letter(s, byte(state));
    }
    s
}

// Of four texts one is wild, one as it is written, and two are damaged.
fn text(state: &mut u64) -> Sample {
    match draw(state, 4) {
        0 => wild(state),
        1 => written(state),
        _ => damaged(state),
    }
}

fn one(rt: &impl Print, count: Count, sample: Sample) -> Count {
    let text = bytes_of(&sample);
    let meant = judge(text);
    let right = is_read(text, meant);
    if !right {
        print_sample(rt, b"  in the text ", sample);
    }
    counted(rt, count, meant.ground, right)
}

pub fn score_texts(rt: &impl Print, cases: usize, seed: u64) -> Count {
    let mut state = seed;
    let mut count = none();
    for _ in 0..cases {
        let sample = text(&mut state);
        count = one(rt, count, sample);
    }
    count
}
