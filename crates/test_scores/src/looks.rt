//! The library's two calls on score texts, each answer looked at whole.
use super::definition::Meant;
use answer::{Place, Refusal};
use test_words::line::{negative, positive};
use test_words::plain::{all_are, part};

/// What an output holds before it is written to.
pub const DIRT: u8 = 170;

fn score_of(m: Meant) -> i32 {
    if m.minus {
        return negative(m.size);
    }
    positive(m.size)
}

/// Whether a text is read as it must be: a refusal names no place.
pub fn is_read(text: &[u8], m: Meant) -> bool {
    match decimal::read(text) {
        Ok(score) => m.ground == 0 && score == score_of(m),
        Err(refusal) => is_refusal(refusal, m.ground),
    }
}

// Whether a refusal is on this ground, and names no place.
fn is_refusal(refusal: Refusal, ground: usize) -> bool {
    refusal.ground.number() == ground && refusal.place == Place::Nothing
}

/// Whether a number is answered with this ground, or 0, and written to a dirty output as this text, which is empty beside a refusal: no
/// other byte is touched.
pub fn is_written(number: i64, out: &mut [u8], text: &[u8], ground: usize) -> bool {
    let answered = match decimal::write(number, out) {
        Ok(length) => ground == 0 && length == text.len(),
        Err(refusal) => is_refusal(refusal, ground) && text.is_empty(),
    };
    answered && part(out, 0, text.len()) == text && all_are(out, text.len(), DIRT)
}
