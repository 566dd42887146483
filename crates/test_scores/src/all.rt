//! All scores, each written and read back.
use super::definition::{Meant, judge, spelled};
use super::looks::{DIRT, is_read, is_written};
use test_random::samples::bytes_of;
use test_random::tally::{Count, counted, none, print_sample};
use test_words::plain::{part, within};
use test_words::signed::with_sign;

// Whether the definition takes a text for this score, so that it is held to itself too.
fn is_meant(m: Meant, minus: bool, size: usize) -> bool {
    m.ground == 0 && m.minus == minus && m.size == size
}

// Whether a text of 4 to 9 bytes is written for a score, and that score is read from what was written.
fn text_right(minus: bool, size: usize, text: &[u8]) -> bool {
    let mut out = [DIRT; 12];
    let score = Meant {
        ground: 0,
        minus,
        size,
    };
    within(4, 9, text.len())
        && is_meant(judge(text), minus, size)
        && is_written(with_sign(minus, size), &mut out, text, 0)
        && is_read(part(&out, 0, text.len()), score)
}

fn one(rt: &impl Print, count: Count, minus: bool, size: usize) -> Count {
    let text = spelled(minus, size);
    let right = text_right(minus, size, bytes_of(&text));
    if !right && count.wrong < 20 {
        print_sample(rt, b"  in the score ", text);
    }
    counted(rt, count, 0, right)
}

// A size on both sides of zero.
fn both(rt: &impl Print, count: Count, size: usize) -> Count {
    let above = one(rt, count, false, size);
    if size == 0 {
        return above;
    }
    one(rt, above, true, size)
}

/// All 2,000,001 scores.
pub fn all_scores(rt: &impl Print) -> Count {
    let mut count = none();
    for size in 0..1000001 {
        count = both(rt, count, size);
    }
    count
}
