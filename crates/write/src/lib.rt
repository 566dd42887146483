//! Bytes put to a lent output, each thing whole or not at all.
#![tactic(auto)]

mod digits;

ghost use Rattle.std.specs.Prelude.{◌≡◌, ◌+◌, leb};
ghost use Rattle.write.specs.Decimal.{decimal};
ghost use Rattle.write.specs.Puts.{Puts};

use digits::digits_of;

/// Whether so many bytes from a place on lie within so much room.
fn has_room(at: usize, size: usize, room: usize) -> bool
    ensures { result ≡ leb (at + size) room }
{
    at <= room && size <= room - at
}

/// Puts a word from a place on, and answers the place behind it.
pub fn put_word(out: &mut [u8], at: usize, word: &[u8]) -> usize
    ensures { Puts word.now at out.old out.new result }
{
    if !has_room(at, word.len(), out.len()) {
        return at;
    }
    let end = at + word.len();
    out[at..end].copy_from_slice(word);
    end
}

/// Puts a number in decimal from a place on, and answers the place behind it.
pub fn put_decimal(out: &mut [u8], at: usize, n: u64) -> usize
    ensures { Puts (decimal n) at out.old out.new result }
{
    let digits = digits_of(n);
    put_word(out, at, &digits.places[digits.first..])
}
