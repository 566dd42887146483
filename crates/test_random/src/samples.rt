//! Random texts.
use super::characters::{any, closing, closing_of, opening, unpaired};
use super::draw;
use test_brute::texts::{closes, deeper, opens, partner};
use test_words::plain::part;

/// A text of at most 12 bytes.
#[derive(Clone, Copy)]
pub struct Sample {
    pub len: usize,
    pub bytes: [u8; 12],
}

pub fn empty() -> Sample {
    Sample {
        len: 0,
        bytes: [0; 12],
    }
}

/// The text with a byte more.
pub fn with_letter(s: Sample, byte: u8) -> Sample {
    let at = s.len;
    let mut next = s;
    if at < 12 {
        next.bytes[at] = byte;
        next.len = at + 1;
    }
    next
}

pub fn letter_at(s: Sample, k: usize) -> u8 {
    if k < 12 { s.bytes[k] } else { 0 }
}

/// The text with another byte at a place.
pub fn with_letter_at(s: Sample, k: usize, byte: u8) -> Sample {
    let mut next = s;
    if k < 12 {
        next.bytes[k] = byte;
    }
    next
}

// The next byte of a structure of which so many brackets are open and so many bytes are left to come.
fn letter(state: &mut u64, depth: usize, left: usize) -> u8 {
    if left <= depth {
        return b')';
    }
    let pick = draw(state, 5);
    if pick < 2 {
        return b'.';
    }
    if pick < 4 {
        return if left - depth < 2 { b'.' } else { b'(' };
    }
    if depth == 0 { b'.' } else { b')' }
}

// A random structure of 0 to 10 bytes, in dots and round brackets.
fn dot_bracket_structure(state: &mut u64) -> Sample {
    let len = draw(state, 11);
    let mut s = empty();
    let mut depth = 0;
    for k in 0..len {
        let byte = letter(state, depth, len - k);
        depth = deeper(depth, byte);
        s = with_letter(s, byte);
    }
    s
}

/// The bytes of a text.
pub fn bytes_of(s: &Sample) -> &[u8] {
    part(&s.bytes, 0, s.len)
}

// Another byte for the one at a place: any unpaired character, any opening bracket, or the closing bracket of the one that it closes.
fn another(s: Sample, k: usize, state: &mut u64) -> u8 {
    let byte = letter_at(s, k);
    if opens(byte) {
        return opening(state);
    }
    if closes(byte) {
        return closing_of(letter_at(s, partner(bytes_of(&s), k)));
    }
    unpaired(state)
}

/// The same structure in other characters and other kinds of brackets. They are drawn apart, so that nothing else that is drawn hangs on them.
pub fn respelled(structure: Sample, seed: u64) -> Sample {
    let mut state = seed / 2;
    let mut s = structure;
    for k in 0..structure.len {
        s = with_letter_at(s, k, another(s, k, &mut state));
    }
    s
}

/// A random structure of 0 to 10 bytes.
pub fn structure(state: &mut u64) -> Sample {
    let form = dot_bracket_structure(state);
    respelled(form, *state)
}

// A closing bracket at a place becomes, one time in three, one of any kind.
fn with_flaw_at(s: Sample, k: usize, state: &mut u64) -> Sample {
    if !closes(letter_at(s, k)) || 0 < draw(state, 3) {
        return s;
    }
    with_letter_at(s, k, closing(state))
}

fn with_flaws(structure: Sample, state: &mut u64) -> Sample {
    let mut s = structure;
    for k in 0..structure.len {
        s = with_flaw_at(s, k, state);
    }
    s
}

/// A structure some of whose closing brackets are of any kind; one byte of every third is any.
pub fn flawed(state: &mut u64) -> Sample {
    let whole = structure(state);
    let s = with_flaws(whole, state);
    if 0 < draw(state, 3) {
        return s;
    }
    let at = draw(state, s.len);
    with_letter_at(s, at, any(state))
}

/// A random text of 0 to 10 bytes, structure or not.
pub fn scrawl(state: &mut u64) -> Sample {
    let len = draw(state, 11);
    let mut s = empty();
    for _ in 0..len {
        s = with_letter(s, any(state));
    }
    s
}
