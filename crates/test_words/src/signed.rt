//! Numbers of 64 bits with a sign.
use super::line::number;
use super::plain::{byte_at, more};

/// The number of a sign and a size, or the last one of 64 bits on that side for one beyond it.
pub fn with_sign(minus: bool, size: usize) -> i64 {
    if minus {
        0i64.saturating_sub_unsigned(size as u64)
    } else {
        0i64.saturating_add_unsigned(size as u64)
    }
}

/// The number that a word begins with, with its sign.
pub fn signed_number(s: &[u8], at: usize) -> i64 {
    if byte_at(s, at) == b'-' {
        return with_sign(true, number(s, more(at)));
    }
    with_sign(false, number(s, at))
}
