//! What a score text is, and what the text of a number is, straight by the rules for it.
ghost use Rattle.std.specs.Prelude.{◌<◌};

use test_random::samples::{Sample, empty, with_letter};
use test_words::line::tenfold;
use test_words::plain::{more, small, within};

// What stands in a text, walked from its front: whether a minus is first, the digits before the point, whether they begin with a zero, the
// point, and the digits behind it; the number of all digits, which stays where it is far beyond every score; and whether a byte stands where it may not.
#[derive(Clone, Copy)]
struct Walk {
    minus: bool,
    before: usize,
    zero_first: bool,
    point: bool,
    behind: usize,
    number: usize,
    misplaced: bool,
}

fn start() -> Walk {
    Walk {
        minus: false,
        before: 0,
        zero_first: false,
        point: false,
        behind: 0,
        number: 0,
        misplaced: false,
    }
}

fn with_digit(w: Walk, digit: u8) -> Walk {
    let mut next = w;
    next.number = tenfold(w.number, digit);
    if w.point {
        next.behind = more(w.behind);
        return next;
    }
    next.before = more(w.before);
    if w.before == 0 {
        next.zero_first = digit == b'0';
    }
    next
}

fn with_misplaced(w: Walk) -> Walk {
    let mut next = w;
    next.misplaced = true;
    next
}

// There is one point.
fn with_point(w: Walk) -> Walk {
    if w.point {
        return with_misplaced(w);
    }
    let mut next = w;
    next.point = true;
    next
}

// A minus stands before all else.
fn with_minus(w: Walk, at: usize) -> Walk {
    if 0 < at {
        return with_misplaced(w);
    }
    let mut next = w;
    next.minus = true;
    next
}

fn with_byte(w: Walk, at: usize, byte: u8) -> Walk {
    match byte {
        b'-' => with_minus(w, at),
        b'.' => with_point(w),
        b'0'..=b'9' => with_digit(w, byte),
        _ => with_misplaced(w),
    }
}

fn walked(s: &[u8]) -> Walk {
    let mut w = start();
    for (k, &byte) in s.iter().enumerate() {
        w = with_byte(w, k, byte);
    }
    w
}

// One to five digits, a point, two digits, and no idle leading zero.
fn has_form(w: Walk) -> bool {
    !w.misplaced
        && w.point
        && within(1, 5, w.before)
        && w.behind == 2
        && (!w.zero_first || w.before == 1)
}

// Beside the form: no minus before 0.00, and no more than 10000.00 on either side of zero.
fn is_score(w: Walk) -> bool {
    has_form(w) && !(w.minus && w.number == 0) && w.number <= 1000000
}

/// What reading a text must answer: a ground, or 0 with the sign and the size of the score.
#[derive(Clone, Copy)]
pub struct Meant {
    pub ground: usize,
    pub minus: bool,
    pub size: usize,
}

pub fn judge(s: &[u8]) -> Meant {
    let w = walked(s);
    if is_score(w) {
        return Meant {
            ground: 0,
            minus: w.minus,
            size: w.number,
        };
    }
    Meant {
        ground: 23,
        minus: false,
        size: 0,
    }
}

// What a digit counts at a place: place 0 is that of the hundredths.
fn unit(place: usize) -> usize
    ensures { 0 < result }
{
    match place {
        0 => 1,
        1 => 10,
        2 => 100,
        3 => 1000,
        4 => 10000,
        5 => 100000,
        6 => 1000000,
        _ => 10000000,
    }
}

fn digit_at(n: usize, place: usize) -> u8 {
    small(48 + n / unit(place) % 10)
}

// The digit of a place and the point behind that of place 2. Zeros are left out before the last three digits.
fn with_place(t: Sample, n: usize, place: usize) -> Sample {
    if place == 2 {
        return with_letter(with_letter(t, digit_at(n, place)), b'.');
    }
    if 2 < place && n < unit(place) {
        return t;
    }
    with_letter(t, digit_at(n, place))
}

fn with_sign_of(minus: bool, n: usize) -> Sample {
    if minus && 0 < n {
        return with_letter(empty(), b'-');
    }
    empty()
}

/// The text of a number of hundredths by its sign and its size, which has at most eight digits.
pub fn spelled(minus: bool, n: usize) -> Sample {
    let mut t = with_sign_of(minus, n);
    for place in (0..8).rev() {
        t = with_place(t, n, place);
    }
    t
}
