//! Answers in words, as the papers print them.
use super::{Text, with_bytes, with_number, with_spaced};
use answer::{Place, Refusal};

/// The number of the ground that an answer gives, and 0 if it gives none.
pub fn ground_of<T: Copy>(answer: Result<T, Refusal>) -> usize {
    match answer {
        Ok(_) => 0,
        Err(refusal) => refusal.ground.number(),
    }
}

/// What its place is: a byte of Q or of T, a seed, or nothing.
pub fn kind_of<T: Copy>(answer: Result<T, Refusal>) -> u8 {
    match answer {
        Ok(_) => b'-',
        Err(refusal) => match refusal.place {
            Place::ByteInQ(_) => b'Q',
            Place::ByteInT(_) => b'T',
            Place::Seed(_) => b's',
            Place::Nothing => b'-',
        },
    }
}

/// The byte or the seed number of its place, and 0 if it has none.
pub fn place_of<T: Copy>(answer: Result<T, Refusal>) -> usize {
    match answer {
        Ok(_) => 0,
        Err(refusal) => match refusal.place {
            Place::ByteInQ(k) | Place::ByteInT(k) => k,
            Place::Seed(number) => number,
            Place::Nothing => 0,
        },
    }
}

fn with_place(t: Text, place: Place) -> Text {
    match place {
        Place::ByteInQ(k) => with_spaced(with_bytes(t, b" Q"), k),
        Place::ByteInT(k) => with_spaced(with_bytes(t, b" T"), k),
        Place::Seed(n) => with_spaced(with_bytes(t, b" seed"), n),
        Place::Nothing => t,
    }
}

pub fn with_refusal(t: Text, refusal: Refusal) -> Text {
    let head = with_spaced(with_bytes(t, b"refused"), refusal.ground.number());
    with_place(head, refusal.place)
}

pub fn with_answer<T: Copy>(t: Text, answer: Result<T, Refusal>) -> Text {
    match answer {
        Ok(_) => with_bytes(t, b"accepted"),
        Err(refusal) => with_refusal(t, refusal),
    }
}
