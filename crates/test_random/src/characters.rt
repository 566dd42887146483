//! The bytes that random texts are made of.
use super::draw;
use test_words::plain::byte_at;

/// An unpaired character.
pub fn unpaired(state: &mut u64) -> u8 {
    byte_at(b".,:_-~", draw(state, 6))
}

/// An opening bracket of any kind.
pub fn opening(state: &mut u64) -> u8 {
    byte_at(b"(<[{", draw(state, 4))
}

/// A closing bracket of any kind.
pub fn closing(state: &mut u64) -> u8 {
    byte_at(b")>]}", draw(state, 4))
}

/// The closing bracket of an opening one.
pub fn closing_of(byte: u8) -> u8 {
    match byte {
        b'(' => b')',
        b'<' => b'>',
        b'[' => b']',
        _ => b'}',
    }
}

// A byte that is refused: a letter, a neighbour of a good byte, or the end of a line.
fn refused(state: &mut u64) -> u8 {
    byte_at(b"Aax'*+/9;=?Z\\^`z|\x7f\r\n", draw(state, 20))
}

/// Any byte of a text: now and then one that is refused.
pub fn any(state: &mut u64) -> u8 {
    let pick = draw(state, 19);
    if pick < 6 {
        return unpaired(state);
    }
    if pick < 12 {
        return opening(state);
    }
    if pick < 18 {
        return closing(state);
    }
    refused(state)
}
