//! The bytes that a word of a script spells, in hexadecimal or as lines.
use super::line::word;
use super::plain::put;

fn hex_digit(c: u8) -> u8 {
    match c {
        b'0'..=b'9' => c - b'0',
        b'a'..=b'f' => c - b'a' + 10,
        _ => 0,
    }
}

/// Puts the bytes that a word spells in hexadecimal into the output from a place on, and answers the place behind them.
pub fn put_hex(s: &[u8], at: usize, out: &mut [u8], from: usize) -> usize {
    let mut end = from;
    let mut first_digit: Option<u8> = None;
    for &letter in word(s, at) {
        let digit = hex_digit(letter);
        first_digit = match first_digit {
            Some(high) => {
                end = put(out, end, (high % 16) * 16 + digit % 16);
                None
            }
            None => Some(digit),
        };
    }
    end
}

// Puts a byte of a word that spells lines: "\n" is a line feed.
fn put_letter(out: &mut [u8], at: usize, before: u8, byte: u8) -> usize {
    if byte == b'\\' {
        return at;
    }
    if before == b'\\' {
        return put(out, at, b'\n');
    }
    put(out, at, byte)
}

/// Puts the lines that are spelled so into the output, and answers the place behind them.
pub fn put_lines(lines: &[u8], out: &mut [u8]) -> usize {
    let mut end = 0;
    let mut before = b' ';
    for &byte in lines {
        end = put_letter(out, end, before, byte);
        before = byte;
    }
    end
}
