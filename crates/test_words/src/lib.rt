//! Bytes, words and lines of text: a script is read by them, and what a call answers is put into words.
#![tactic(auto)]

pub mod answers;
pub mod line;
pub mod plain;
pub mod signed;
pub mod spelled;

use itoa::Buffer;
use plain::part;
use std::io::{self, Write};

/// A line of text that is put together piece by piece.
#[derive(Clone, Copy)]
pub struct Text {
    pub len: usize,
    pub bytes: [u8; 512],
}

pub fn blank() -> Text {
    Text {
        len: 0,
        bytes: [0; 512],
    }
}

pub fn with_byte(t: Text, byte: u8) -> Text {
    let at = t.len;
    let mut next = t;
    if at < 512 {
        next.bytes[at] = byte;
        next.len = at + 1;
    }
    next
}

pub fn with_bytes(t: Text, bytes: &[u8]) -> Text {
    let mut next = t;
    for &byte in bytes {
        next = with_byte(next, byte);
    }
    next
}

pub fn with_number(t: Text, n: usize) -> Text {
    let mut digits = Buffer::new();
    with_bytes(t, digits.format(n).as_bytes())
}

/// A space and a number.
pub fn with_spaced(t: Text, n: usize) -> Text {
    with_number(with_byte(t, b' '), n)
}

fn glyph(n: u8) -> u8 {
    match n {
        0..=9 => b'0' + n,
        10..=15 => b'a' + (n - 10),
        _ => b'?',
    }
}

pub fn with_hex(t: Text, bytes: &[u8]) -> Text {
    let mut next = t;
    for &byte in bytes {
        next = with_byte(with_byte(next, glyph(byte / 16)), glyph(byte % 16));
    }
    next
}

// A byte of printed lines: a line feed is spelled "\n".
fn with_letter(t: Text, byte: u8) -> Text {
    if byte == b'\n' {
        return with_bytes(t, b"\\n");
    }
    with_byte(t, byte)
}

pub fn with_lines(t: Text, bytes: &[u8]) -> Text {
    let mut next = t;
    for &byte in bytes {
        next = with_letter(next, byte);
    }
    next
}

/// Whether the text is just these bytes.
pub fn is(t: Text, bytes: &[u8]) -> bool {
    part(&t.bytes, 0, t.len) == bytes
}

/// Whether it begins with this byte.
pub fn begins(t: Text, byte: u8) -> bool {
    t.bytes[0] == byte
}

/// Prints bytes as they are. An output that takes no more is left to whoever reads it.
pub fn print_bytes(rt: &impl Print, bytes: &[u8]) {
    let _ = io::writer(rt).write_all(bytes);
}

pub fn print(rt: &impl Print, t: Text) {
    print_bytes(rt, part(&t.bytes, 0, t.len));
}
