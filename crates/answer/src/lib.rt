//! Why a call is turned down: a numbered ground, and the place where it was met.
#![tactic(auto)]

ghost use Rattle.std.specs.Prelude.{◌≡◌, Some};
ghost use Rattle.answer.specs.Answer.{number_of};
ghost use Rattle.answer.specs.Refusal.{refusal_at, refusal_text};

use std::error::Error;
use std::fmt;

/// The grounds for turning a call down, by rising number. A call is judged by them in an order of its own, which is not that of the numbers.
#[derive(Clone, Copy, Debug, PartialEq, Eq, Hash)]
pub enum Ground {
    TextLength,
    UnknownByte,
    ClosesNothing,
    NeverClosed,
    DeckLayout,
    PairIndex,
    PairReachedTwice,
    PairNeverReached,
    NumberNotGiven,
    PresenceAsAsked,
    ScoreRange,
    NoPairs,
    SeedLimit,
    PairLimit,
    OutsideTree,
    NotRising,
    AncestryDiffers,
    LastNotAncestor,
    BorderUnpaired,
    ChangeLimit,
    ScratchShort,
    OutputShort,
    ScoreText,
    ClosesOtherKind,
    UnlikeNodes,
    QueueFull,
}

/// Where a ground was met: a byte position of Q or of T, counted from 0, a seed number, or nowhere that could be named.
#[derive(Clone, Copy, Debug, PartialEq, Eq, Hash)]
pub enum Place {
    ByteInQ(usize),
    ByteInT(usize),
    Seed(usize),
    Nothing,
}

/// What a call answers in place of its value.
#[derive(Clone, Copy, Debug, PartialEq, Eq, Hash)]
pub struct Refusal {
    pub ground: Ground,
    pub place: Place,
}

impl Ground {
    /// The number that stands for the ground in what is printed.
    pub fn number(self) -> usize
        ensures { result ≡ number_of self }
    {
        match self {
            Ground::TextLength => 1,
            Ground::UnknownByte => 2,
            Ground::ClosesNothing => 3,
            Ground::NeverClosed => 4,
            Ground::DeckLayout => 5,
            Ground::PairIndex => 6,
            Ground::PairReachedTwice => 7,
            Ground::PairNeverReached => 8,
            Ground::NumberNotGiven => 9,
            Ground::PresenceAsAsked => 10,
            Ground::ScoreRange => 11,
            Ground::NoPairs => 12,
            Ground::SeedLimit => 13,
            Ground::PairLimit => 14,
            Ground::OutsideTree => 15,
            Ground::NotRising => 16,
            Ground::AncestryDiffers => 17,
            Ground::LastNotAncestor => 18,
            Ground::BorderUnpaired => 19,
            Ground::ChangeLimit => 20,
            Ground::ScratchShort => 21,
            Ground::OutputShort => 22,
            Ground::ScoreText => 23,
            Ground::ClosesOtherKind => 24,
            Ground::UnlikeNodes => 25,
            Ground::QueueFull => 31,
        }
    }

    /// The refusal on this ground at a place.
    pub fn at(self, place: Place) -> Refusal
        ensures { result ≡ refusal_at self place }
    {
        Refusal {
            ground: self,
            place,
        }
    }
}

/// The words of a printed refusal, as `refused 2 T 4`, with no line feed behind them.
impl fmt::Display for Refusal {
    ghost output = { λ refusal. Some (refusal_text refusal) };

    fn fmt<W: fmt::Write>(&self, f: &mut fmt::Formatter<W>) -> fmt::Result {
        let number = self.ground.number();
        match self.place {
            Place::ByteInQ(byte) => write!(f, "refused {number} Q {byte}"),
            Place::ByteInT(byte) => write!(f, "refused {number} T {byte}"),
            Place::Seed(seed) => write!(f, "refused {number} seed {seed}"),
            Place::Nothing => write!(f, "refused {number}"),
        }
    }
}

impl Error for Refusal {}
