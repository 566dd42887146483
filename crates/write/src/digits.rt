//! The digits of a number.
ghost use Rattle.std.specs.Prelude.{◌≡◌, ◌≤◌, length, drop};
ghost use Rattle.write.specs.Decimal.{decimal};

/// The digits of a number in the last of twenty places, from the first digit on.
#[derive(Clone, Copy)]
pub struct Digits {
    pub places: [u8; 20],
    pub first: usize,
}

/// By hand, since the library rests on the kit's std alone, and `decimal` here has room for twenty digits.
pub fn digits_of(n: u64) -> Digits
    ensures { (result.first ≤ 19) × (length result.places ≡ 20) × (drop result.first result.places ≡ decimal n) }
{
    let mut places = [0u8; 20];
    let mut rest = n;
    let mut first = 19;
    while 10 <= rest {
        places[first] = 48 + (rest % 10) as u8;
        rest = rest / 10;
        first -= 1;
    }
    places[first] = 48 + rest as u8;
    Digits { places, first }
}
