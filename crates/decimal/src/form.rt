//! The form of a score text, and the number that it stands for.
ghost use Rattle.std.specs.Prelude.{◌≡◌, true, ◌≤◌, ◌<◌, length};
ghost use Rattle.decimal.specs.Score.{minus_first, behind_minus, whole_in, hundredths_in, all_digits, idle_zero, digits_number, unsigned_form, unsigned_number};

/// Whether a minus stands first.
#[tactic(auto, using(crate::proofs::Forms::minus_here, crate::proofs::Forms::minus_other, crate::proofs::Forms::minus_none))]
pub fn minus_first(text: &[u8]) -> bool
    ensures { result ≡ minus_first text.now }
{
    matches!(text, [b'-', ..])
}

/// The text behind its minus, if it has one.
#[tactic(auto, using(crate::proofs::Forms::behind_here, crate::proofs::Forms::behind_other, crate::proofs::Forms::behind_short))]
pub fn behind_minus(text: &[u8]) -> &[u8]
    ensures { result.now ≡ behind_minus text.now }
{
    match text {
        [b'-', unsigned @ ..] => unsigned,
        _ => text,
    }
}

/// What stands before the last three bytes.
#[tactic(auto, unfolding(crate::specs::Score::whole_in))]
fn whole_in(unsigned: &[u8]) -> &[u8]
    ensures { result.now ≡ whole_in unsigned.now }
{
    let end = unsigned.len().saturating_sub(3);
    &unsigned[..end]
}

/// The last two bytes.
fn hundredths_in(unsigned: &[u8]) -> &[u8]
    ensures { result.now ≡ hundredths_in unsigned.now }
{
    let start = unsigned.len().saturating_sub(2);
    &unsigned[start..]
}

fn all_digits(s: &[u8]) -> bool
    ensures { result ≡ all_digits s.now }
{
    s.iter().all(|byte| byte.is_ascii_digit())
}

/// Whether a zero stands before another digit.
#[tactic(auto, using(crate::proofs::Forms::idle_here, crate::proofs::Forms::idle_other, crate::proofs::Forms::idle_short))]
fn idle_zero(whole: &[u8]) -> bool
    ensures { result ≡ idle_zero whole.now }
{
    matches!(whole, [b'0', _, ..])
}

/// The number that a few digits stand for. A loop and no fold: that nothing overflows rests on what was passed so far.
fn digits_number(s: &[u8]) -> u64
    requires few { length s.now ≤ 5 }
    requires digits { all_digits s.now ≡ true }
    ensures number { result ≡ digits_number 0 s.now }
    ensures small { result < 100000 }
{
    let mut n = 0;
    for &byte in s {
        n = 10 * n + (byte - b'0') as u64;
    }
    n
}

/// Whether a text without its minus is one to five digits, a point and two digits, with no idle leading zero.
pub fn unsigned_form(unsigned: &[u8]) -> bool
    ensures { result ≡ unsigned_form unsigned.now }
{
    let size = unsigned.len();
    let whole = whole_in(unsigned);
    (4..=8).contains(&size)
        && all_digits(whole)
        && unsigned[size - 3] == b'.'
        && all_digits(hundredths_in(unsigned))
        && !idle_zero(whole)
}

/// The number of hundredths that such a text stands for.
pub fn unsigned_number(unsigned: &[u8]) -> u64
    requires { unsigned_form unsigned.now ≡ true }
    ensures number { result ≡ unsigned_number unsigned.now }
    ensures small { result < 20000000 }
{
    100 * digits_number(whole_in(unsigned)) + digits_number(hundredths_in(unsigned))
}
