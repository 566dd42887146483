// The text of a number of hundredths.
ghost use Rattle.std.specs.Prelude.{◌≡◌, [], ◌∷◌, ◌+◌, ◌<◌};
ghost use Rattle.write.specs.Puts.{Room, Puts};
ghost use Rattle.decimal.specs.Score.{two_digits, unsigned_text};
ghost use Rattle.decimal.specs.inner.Texts.{signed_text, text_laid};

use write::{put_decimal, put_word};

// How many bytes hold every text.
pub const TEXT: usize = 24;

// A text, and how many bytes it has: what stands behind it is zero.
#[derive(Clone, Copy)]
pub struct NumberText {
    pub bytes: [u8; TEXT],
    pub length: usize,
}

fn put_digit(out: &mut [u8], at: usize, digit: u64) -> usize
    requires { digit < 10 }
    ensures { Puts ((48 + digit) ∷ []) at out.old out.new result }
{
    let byte = [48 + digit as u8];
    put_word(out, at, &byte)
}

// A number below 100 in two digits.
fn put_two_digits(out: &mut [u8], at: usize, n: u64) -> usize
    requires fact_1 { n < 100 }
    requires fact_2 { Room (two_digits n) at out.old }
    ensures { Puts (two_digits n) at out.old out.new result }
{
    let behind_first = put_digit(out, at, n / 10);
    put_digit(out, behind_first, n % 10)
}

// The digits before the point, the point, and two digits.
fn put_unsigned(out: &mut [u8], at: usize, hundredths: u64) -> usize
    requires { Room (unsigned_text hundredths) at out.old }
    ensures { Puts (unsigned_text hundredths) at out.old out.new result }
{
    let behind_whole = put_decimal(out, at, hundredths / 100);
    let behind_point = put_word(out, behind_whole, b".");
    put_two_digits(out, behind_point, hundredths % 100)
}

fn put_signed(out: &mut [u8], minus: bool, hundredths: u64) -> usize
    requires { Room (signed_text minus hundredths) 0 out.old }
    ensures { Puts (signed_text minus hundredths) 0 out.old out.new result }
{
    if minus {
        let behind_minus = put_word(out, 0, b"-");
        put_unsigned(out, behind_minus, hundredths)
    } else {
        put_unsigned(out, 0, hundredths)
    }
}

// The text of a number by its sign and its size.
pub fn text_of(minus: bool, hundredths: u64) -> NumberText
    ensures { result ≡ text_laid (signed_text minus hundredths) }
{
    let mut bytes = [0u8; TEXT];
    let length = put_signed(&mut bytes[..], minus, hundredths);
    NumberText { bytes, length }
}
