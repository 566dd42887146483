//! Grounds 1 to 4 and 24 of a text of any bytes.
use test_words::plain::{byte_at, find, less, more, rest};

/// A ground and its byte.
#[derive(Clone, Copy)]
pub struct Verdict {
    pub ground: usize,
    pub at: usize,
}

// Where a byte stands among the fourteen that are not refused: the brackets, each closing one behind its opening one, and the unpaired characters.
fn rank(byte: u8) -> usize {
    find(b"()<>[]{}.,:_-~", 0, byte, byte)
}

pub fn opens(byte: u8) -> bool {
    let k = rank(byte);
    k < 8 && k % 2 == 0
}

pub fn closes(byte: u8) -> bool {
    let k = rank(byte);
    k < 8 && k % 2 == 1
}

// Which of the four kinds a bracket is of.
fn kind(byte: u8) -> usize {
    rank(byte) / 2
}

/// How many brackets are open behind a byte: a closing one that closes nothing changes nothing.
pub fn deeper(depth: usize, byte: u8) -> usize {
    if opens(byte) {
        return more(depth);
    }
    if closes(byte) {
        return less(depth);
    }
    depth
}

fn first_refused(s: &[u8]) -> Option<usize> {
    s.iter().position(|&byte| 13 < rank(byte))
}

fn first_closing_nothing(s: &[u8]) -> Option<usize> {
    let mut depth = 0;
    for (k, &byte) in s.iter().enumerate() {
        if closes(byte) && depth == 0 {
            return Some(k);
        }
        depth = deeper(depth, byte);
    }
    None
}

// Whether the opening bracket at a byte is closed later: the brackets behind it come back to as many as before it.
fn is_closed(s: &[u8], at: usize) -> bool {
    let mut depth = 1;
    for &byte in rest(s, more(at)) {
        depth = deeper(depth, byte);
        if depth == 0 {
            return true;
        }
    }
    false
}

fn first_never_closed(s: &[u8]) -> Option<usize> {
    (0..s.len()).find(|&k| opens(byte_at(s, k)) && !is_closed(s, k))
}

// How many closing brackets are still to be opened before a byte, going backwards.
fn deeper_before(depth: usize, byte: u8) -> usize {
    if closes(byte) {
        return more(depth);
    }
    if opens(byte) {
        return less(depth);
    }
    depth
}

/// The byte of the bracket that the closing one at a byte closes: there, going backwards, none is left to be opened. Its own byte if it closes
/// nothing.
pub fn partner(s: &[u8], at: usize) -> usize {
    let mut depth = 1;
    for j in 0..at {
        let k = at - 1 - j;
        depth = deeper_before(depth, byte_at(s, k));
        if depth == 0 {
            return k;
        }
    }
    at
}

fn first_of_another_kind(s: &[u8]) -> Option<usize> {
    (0..s.len()).find(|&k| {
        closes(byte_at(s, k)) && kind(byte_at(s, partner(s, k))) != kind(byte_at(s, k))
    })
}

/// The first of grounds 1 to 4 and 24 that holds of a text, if any.
pub fn judge(s: &[u8]) -> Option<Verdict> {
    if 255 < s.len() {
        return Some(Verdict { ground: 1, at: 0 });
    }
    if let Some(at) = first_refused(s) {
        return Some(Verdict { ground: 2, at });
    }
    if let Some(at) = first_closing_nothing(s) {
        return Some(Verdict { ground: 3, at });
    }
    if let Some(at) = first_never_closed(s) {
        return Some(Verdict { ground: 4, at });
    }
    first_of_another_kind(s).map(|at| Verdict { ground: 24, at })
}
