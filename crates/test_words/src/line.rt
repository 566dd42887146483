//! The words of a line of a script: they stand with one space between, and a line feed ends the line.
use super::plain::{byte_at, find, more, part, rest, small, wide};

/// Where the word that begins at a place ends.
pub fn word_end(s: &[u8], at: usize) -> usize {
    find(s, at, b' ', b'\n')
}

pub fn line_end(s: &[u8], at: usize) -> usize {
    find(s, at, b'\n', b'\n')
}

pub fn word(s: &[u8], at: usize) -> &[u8] {
    part(s, at, word_end(s, at))
}

// The place behind the first of these bytes in the line, or the line's end if it has none.
fn behind(s: &[u8], at: usize, byte: u8) -> usize {
    let end = find(s, at, byte, b'\n');
    if byte_at(s, end) == byte {
        more(end)
    } else {
        end
    }
}

/// Where the word after the one at a place begins: the line's end after the last.
pub fn next(s: &[u8], at: usize) -> usize {
    behind(s, at, b' ')
}

/// The text that a word stands for: "-" is the empty one.
pub fn structure(s: &[u8], at: usize) -> &[u8] {
    if check::same(word(s, at), b"-") {
        return part(s, at, at);
    }
    word(s, at)
}

/// Where the line's sign "=" stands, or its end if it has none.
pub fn sign(s: &[u8], at: usize) -> usize {
    find(s, at, b'=', b'\n')
}

/// A number with a digit more, up to 19 digits: a longer one stays where it is.
pub fn tenfold(n: usize, digit: u8) -> usize {
    if b'0' <= digit && n < 1000000000000000000 {
        n * 10 + wide(digit - b'0')
    } else {
        n
    }
}

/// The number that a word begins with.
pub fn number(s: &[u8], at: usize) -> usize {
    let mut n = 0;
    for &byte in rest(s, at) {
        if !byte.is_ascii_digit() {
            return n;
        }
        n = tenfold(n, byte);
    }
    n
}

/// The same, or another number where the word has none.
pub fn number_or(s: &[u8], at: usize, other: usize) -> usize {
    if byte_at(s, at).is_ascii_digit() {
        number(s, at)
    } else {
        other
    }
}

/// The number as a score, and the same below 0.
pub fn positive(n: usize) -> i32 {
    if n < 2000000000 { n as i32 } else { 0 }
}

pub fn negative(n: usize) -> i32 {
    if n < 2000000000 { 0 - n as i32 } else { 0 }
}

/// The number with its sign.
pub fn score(s: &[u8], at: usize) -> i32 {
    if byte_at(s, at) == b'-' {
        return negative(number(s, more(at)));
    }
    positive(number(s, at))
}

/// The pairs of a seed, as far as count.
#[derive(Clone, Copy)]
pub struct Pairs {
    pub count: usize,
    pub qs: [u8; 64],
    pub ts: [u8; 64],
}

fn with_pair(p: Pairs, q: u8, t: u8) -> Pairs {
    let at = p.count;
    let mut longer = p;
    if at < 64 {
        longer.qs[at] = q;
        longer.ts[at] = t;
        longer.count = at + 1;
    }
    longer
}

// Where the t of a pair "q:t" begins.
fn after_colon(s: &[u8], at: usize) -> usize {
    behind(s, at, b':')
}

/// The pairs that the words from a place on are, up to the word "score".
pub fn pairs_at(s: &[u8], at: usize) -> Pairs {
    let mut p = Pairs {
        count: 0,
        qs: [0; 64],
        ts: [0; 64],
    };
    let mut k = at;
    for _ in 0usize..64 {
        if byte_at(s, k) == b's' {
            return p;
        }
        p = with_pair(p, small(number(s, k)), small(number(s, after_colon(s, k))));
        k = next(s, k);
    }
    p
}

/// Where the word after "score" begins.
pub fn after_score(s: &[u8], at: usize) -> usize {
    let mut k = at;
    for _ in 0usize..65 {
        if byte_at(s, k) == b's' {
            return next(s, k);
        }
        k = next(s, k);
    }
    k
}
