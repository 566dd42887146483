//! Scores and totals as texts with two decimals: read, and written.
#![tactic(auto)]

mod form;
mod text;

ghost use Rattle.std.specs.Prelude.{◌≡◌, ◌&&◌, ◌<◌, eqb, pos};
ghost use Rattle.write.specs.Puts.{Puts};
ghost use Rattle.decimal.specs.Score.{signed_number, score_read, number_text, beyond, WritesNumber};

use answer::{Ground, Place, Refusal};
use form::{behind_minus, minus_first, unsigned_form, unsigned_number};
use table::in_range;
use text::text_of;
use write::put_word;

/// A minus before 0.00.
fn minus_before_zero(minus: bool, hundredths: u64) -> bool
    ensures { result ≡ minus && eqb hundredths 0 }
{
    minus && hundredths == 0
}

/// A number of hundredths with its sign.
fn signed(minus: bool, hundredths: u64) -> i32
    requires { hundredths < 20000000 }
    ensures { result ≡ signed_number minus hundredths }
{
    let positive = hundredths as i32;
    if minus { -positive } else { positive }
}

/// The score that a text stands for, in hundredths.
pub fn read(text: &[u8]) -> Result<i32, Refusal>
    ensures { result ≡ score_read text.now }
{
    let minus = minus_first(text);
    let unsigned = behind_minus(text);
    if !unsigned_form(unsigned) {
        return Err(Ground::ScoreText.at(Place::Nothing));
    }
    let hundredths = unsigned_number(unsigned);
    if minus_before_zero(minus, hundredths) {
        return Err(Ground::ScoreText.at(Place::Nothing));
    }
    let score = signed(minus, hundredths);
    if !in_range(score) {
        return Err(Ground::ScoreText.at(Place::Nothing));
    }
    Ok(score)
}

/// Whether a number of hundredths is beyond every total, on either side of zero.
#[tactic(auto, unfolding(crate::specs::Score::beyond))]
fn is_beyond(number: i64) -> bool
    ensures { result ≡ beyond number }
{
    !(-64000000..=64000000).contains(&number)
}

/// Writes a score or a total, in hundredths, as a text, and answers how many bytes that is.
pub fn write(number: i64, out: &mut [u8]) -> Result<usize, Refusal>
    ensures { WritesNumber number out.old out.new result }
{
    if is_beyond(number) {
        return Err(Ground::ScoreRange.at(Place::Nothing));
    }
    let text = text_of(number < 0, number.unsigned_abs());
    if out.len() < text.length {
        return Err(Ground::OutputShort.at(Place::Nothing));
    }
    put_word(out, 0, &text.bytes[..text.length]);
    Ok(text.length)
}

/// Puts a total, in hundredths, as a text from a place on, and answers the place behind it.
pub fn put_total(out: &mut [u8], at: usize, total: u64) -> usize
    ensures { Puts (number_text (pos total)) at out.old out.new result }
{
    let text = text_of(false, total);
    put_word(out, at, &text.bytes[..text.length])
}
