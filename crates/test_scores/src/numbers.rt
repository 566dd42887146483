//! Random numbers of all sizes on both sides of zero, written to outputs of 0 to 12 bytes and held to the definition.
use super::definition::spelled;
use super::looks::{DIRT, is_written};
use test_random::draw;
use test_random::samples::{Sample, empty};
use test_random::tally::{Count, counted, none, print_sample};
use test_words::plain::{part, plus};
use test_words::signed::with_sign;

// A number with three digits more.
fn thousandfold(n: usize) -> usize {
    if n < 1000000 { n * 1000 } else { n }
}

pub fn any_below_a_million(state: &mut u64) -> usize {
    let thousands = thousandfold(draw(state, 1000));
    plus(thousands, draw(state, 1000))
}

// A number with 15 bits more, of which 63 are kept.
fn longer(state: &mut u64, n: usize) -> usize {
    n % 281474976710656 * 32768 + draw(state, 32768) % 32768
}

// Any size of 63 bits.
fn any_size(state: &mut u64) -> usize {
    let mut n = 0;
    for _ in 0usize..5 {
        n = longer(state, n);
    }
    n
}

// One of the last sizes that 64 bits with a sign hold: the very last only below 0.
fn last_size(state: &mut u64) -> usize {
    9223372036854775808 - draw(state, 100) % 100
}

// A size near 0, near the bounds of a score, where a digit comes up, near the bounds of a total, within them, or anywhere in 64 bits.
fn size(state: &mut u64) -> usize {
    match draw(state, 9) {
        0 => draw(state, 120),
        1 => draw(state, 12000),
        2 => any_below_a_million(state),
        3 => plus(999990, draw(state, 20)),
        4 => plus(9999990, draw(state, 20)),
        5 => plus(63999990, draw(state, 20)),
        6 => plus(
            thousandfold(any_below_a_million(state) % 64000),
            draw(state, 1000),
        ),
        7 => any_size(state),
        _ => last_size(state),
    }
}

// The text of a number, and the empty one beyond every total.
fn text_of(minus: bool, size: usize) -> Sample {
    if 64000000 < size {
        return empty();
    }
    spelled(minus, size)
}

// The ground on which a number is not written to so much room, or 0: 11 comes before 22.
fn ground_asked(size: usize, length: usize, room: usize) -> usize {
    if 64000000 < size {
        return 11;
    }
    if room < length { 22 } else { 0 }
}

// How many bytes are written: none beside a refusal.
fn length_asked(length: usize, ground: usize) -> usize {
    if ground == 0 { length } else { 0 }
}

fn text_right(number: i64, room: usize, text: &[u8], ground: usize) -> bool {
    let mut out = [DIRT; 12];
    room <= 12 && is_written(number, &mut out[..room], text, ground)
}

fn one(rt: &impl Print, count: Count, minus: bool, size: usize, room: usize) -> Count {
    let text = text_of(minus, size);
    let number = with_sign(minus, size);
    let ground = ground_asked(size, text.len, room);
    let asked = part(&text.bytes, 0, length_asked(text.len, ground));
    let right = text_right(number, room, asked, ground);
    if !right {
        print_sample(rt, b"  in a number of the text ", text);
    }
    counted(rt, count, ground, right)
}

pub fn score_numbers(rt: &impl Print, cases: usize, seed: u64) -> Count {
    let mut state = seed;
    let mut count = none();
    for _ in 0..cases {
        let minus = draw(&mut state, 2) == 0;
        let room = draw(&mut state, 13);
        let drawn = size(&mut state);
        count = one(rt, count, minus, drawn, room);
    }
    count
}
