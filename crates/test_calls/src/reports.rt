//! The report of an input, as a script names it. The input is lines and then a deck's bytes.
use super::views::{LONGEST, all_words, remarked};
use answer::Refusal;
use best::SCRATCH;
use lines::Lines;
use test_words::answers::with_refusal;
use test_words::line::{next, number, number_or, structure};
use test_words::plain::{all_are, part};
use test_words::spelled::{put_hex, put_lines};
use test_words::{Text, begins, blank, with_bytes, with_lines};

// The lines, or the refusal.
fn with_report(t: Text, reported: Result<Lines, Refusal>) -> Text {
    match reported {
        Ok(lines) => remarked(
            with_lines(t, part(&lines.bytes, 0, lines.length)),
            all_are(&lines.bytes, lines.length, 0),
            b", more than the lines",
        ),
        Err(refusal) => with_refusal(t, refusal),
    }
}

// The value that a report leaves in a scratch of sevens: the best chain is worked out for the line that begins with "score" alone.
fn left_by(t: Text) -> u64 {
    if begins(t, b's') { 0 } else { 7 }
}

fn with_left(t: Text, scratch: &[u64]) -> Text {
    let left = all_words(scratch, left_by(t));
    remarked(t, left, b", scratch not left so")
}

fn report_on(input: &[u8], scratch: &mut [u64]) -> Text {
    let reported = report::report(input, scratch);
    with_left(with_report(blank(), reported), scratch)
}

fn put_input(s: &[u8], at: usize, input: &mut [u8]) -> usize {
    let lines = put_lines(structure(s, at), input);
    put_hex(s, next(s, at), input, lines)
}

/// report LINES DECK [SCRATCH]
pub fn report(s: &[u8], at: usize) -> Text {
    let mut input = [0u8; 8192];
    let mut scratch = [7u64; LONGEST];
    let end = put_input(s, at, &mut input);
    let words = number_or(s, next(s, next(s, at)), SCRATCH);
    if LONGEST < words {
        return blank();
    }
    report_on(part(&input, 0, end), &mut scratch[..words])
}

fn with_written(t: Text, lines: &[u8]) -> Text {
    if lines.is_empty() {
        return with_bytes(t, b"nothing");
    }
    with_lines(t, lines)
}

fn exported_on(input: &[u8], scratch: &mut [u64], out: &mut [u8]) -> Text {
    let end = report::gurandyo_report(input, scratch, out);
    let text = with_left(with_written(blank(), part(out, 0, end)), scratch);
    let kept = all_are(out, end, 170);
    remarked(text, kept, b", more than the lines touched")
}

/// exported LINES DECK SCRATCH ROOM: the form for C and Rust.
pub fn exported(s: &[u8], at: usize) -> Text {
    let mut input = [0u8; 8192];
    let mut scratch = [7u64; LONGEST];
    let mut out = [170u8; 512];
    let end = put_input(s, at, &mut input);
    let sizes = next(s, next(s, at));
    let words = number(s, sizes);
    let room = number(s, next(s, sizes));
    if LONGEST < words {
        return blank();
    }
    if 512 < room {
        return blank();
    }
    exported_on(
        part(&input, 0, end),
        &mut scratch[..words],
        &mut out[..room],
    )
}
