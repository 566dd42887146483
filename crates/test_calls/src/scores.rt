//! The calls on score texts, as a script names them.
use super::views::{remarked, with_score};
use answer::Refusal;
use test_words::answers::with_answer;
use test_words::line::{next, number_or, word};
use test_words::plain::{all_are, part};
use test_words::signed::signed_number;
use test_words::spelled::put_hex;
use test_words::{Text, blank, with_byte, with_bytes, with_spaced};

// The score in hundredths.
fn with_read(t: Text, read: Result<i32, Refusal>) -> Text {
    let said = with_answer(t, read);
    match read {
        Ok(score) => with_score(said, score),
        Err(_) => said,
    }
}

/// score TEXT
pub fn score(s: &[u8], at: usize) -> Text {
    with_read(blank(), decimal::read(word(s, at)))
}

/// score-hex BYTES: a text that is no word of a script.
pub fn score_hex(s: &[u8], at: usize) -> Text {
    let mut bytes = [0u8; 512];
    let n = put_hex(s, at, &mut bytes, 0);
    with_read(blank(), decimal::read(part(&bytes, 0, n)))
}

/// The length and the text.
pub fn with_written(t: Text, written: Result<usize, Refusal>, text: &[u8]) -> Text {
    let said = with_answer(t, written);
    match written {
        Ok(length) => with_bytes(with_byte(with_spaced(said, length), b' '), text),
        Err(_) => said,
    }
}

fn text_on(number: i64, out: &mut [u8]) -> Text {
    let written = decimal::write(number, out);
    let end = written.unwrap_or(0);
    let text = with_written(blank(), written, part(out, 0, end));
    remarked(
        text,
        all_are(out, end, 170),
        b", more than the text touched",
    )
}

/// text NUMBER [ROOM]
pub fn text(s: &[u8], at: usize) -> Text {
    let mut out = [170u8; 64];
    let room = number_or(s, next(s, at), 64);
    if 64 < room {
        return blank();
    }
    text_on(signed_number(s, at), &mut out[..room])
}
