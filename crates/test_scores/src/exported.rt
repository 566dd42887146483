//! The two calls on score texts for a comparison in Rust.
use test_words::plain::plus;
use test_words::signed::with_sign;

// The number that stands for a ground: from a number on that no score and no length comes near.
fn coded(from: usize, ground: usize) -> i64 {
    with_sign(false, plus(from, ground))
}

/// The score of a text, or 1,000,000,000 and the ground.
pub fn gurandyo_test_read_score(text: &[u8]) -> i64 {
    match decimal::read(text) {
        Ok(score) => score as i64,
        Err(refusal) => coded(1000000000, refusal.ground.number()),
    }
}

/// The length of a number's text, which is written to the output, or 1,000 and the ground.
pub fn gurandyo_test_write_score(number: i64, out: &mut [u8]) -> i64 {
    match decimal::write(number, out) {
        Ok(length) => with_sign(false, length),
        Err(refusal) => coded(1000, refusal.ground.number()),
    }
}
