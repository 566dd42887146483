//! Bytes and numbers, read and counted without a bound that a caller would have to show.

ghost use Rattle.std.specs.Prelude.{◌<◌};

/// One more.
pub fn more(n: usize) -> usize {
    n.saturating_add(1)
}

/// One less, and 0 for 0.
pub fn less(n: usize) -> usize {
    n.saturating_sub(1)
}

/// The sum of two numbers.
pub fn plus(a: usize, b: usize) -> usize {
    a.saturating_add(b)
}

/// Four times a number, of boxes of four bytes.
pub fn fourfold(n: usize) -> usize {
    n.saturating_mul(4)
}

/// Whether a number is one of those from a to b.
pub fn within(a: usize, b: usize, n: usize) -> bool {
    a <= n && n <= b
}

/// The byte at a place, and a line feed past the end.
pub fn byte_at(s: &[u8], at: usize) -> u8 {
    s.get(at).copied().unwrap_or(b'\n')
}

/// The bytes from one place to another, and none where there are not so many.
pub fn part(s: &[u8], from: usize, to: usize) -> &[u8] {
    s.get(from..to).unwrap_or(&[])
}

/// The bytes from a place on.
pub fn rest(s: &[u8], from: usize) -> &[u8] {
    s.get(from..).unwrap_or(&[])
}

/// The byte as a number.
pub fn wide(byte: u8) -> usize
    ensures { result < 256 }
{
    byte as usize
}

/// The number as a byte, and 255 if it is none.
pub fn small(n: usize) -> u8 {
    u8::try_from(n).unwrap_or(u8::MAX)
}

/// The number as one of 16 bits, and 65,535 if it is none.
pub fn to_u16(n: usize) -> u16 {
    u16::try_from(n).unwrap_or(u16::MAX)
}

/// A number of 16 bits as any other.
pub fn from_u16(n: u16) -> usize
    ensures { result < 65536 }
{
    n as usize
}

/// Puts a byte into the output and answers the place behind it: where there is no room, nothing is put.
pub fn put(out: &mut [u8], at: usize, byte: u8) -> usize {
    if at < out.len() {
        out[at] = byte;
        return at + 1;
    }
    at
}

pub fn put_all(out: &mut [u8], at: usize, bytes: &[u8]) -> usize {
    let mut end = at;
    for &byte in bytes {
        end = put(out, end, byte);
    }
    end
}

/// Where one of two bytes stands first from a place on, or the end.
pub fn find(s: &[u8], from: usize, a: u8, b: u8) -> usize {
    for k in from..s.len() {
        if s[k] == a || s[k] == b {
            return k;
        }
    }
    s.len()
}

/// Whether the bytes from a place on all have one value.
pub fn all_are(s: &[u8], from: usize, value: u8) -> bool {
    rest(s, from).iter().all(|&byte| byte == value)
}
