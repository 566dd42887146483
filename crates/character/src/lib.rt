// What one character of a text means, and what a reader of structure needs of it.
#![tactic(auto)]

ghost use Rattle.std.specs.Prelude.{◌≡◌};
ghost use Rattle.character.specs.Character.{meaning_of, role_in};

// The ten outcomes: four openings, four closings, unpaired, refused.
#[derive(Clone, Copy)]
pub enum Meaning {
    OpeningAngle,
    ClosingAngle,
    OpeningRound,
    ClosingRound,
    OpeningSquare,
    ClosingSquare,
    OpeningCurly,
    ClosingCurly,
    Unpaired,
    Refused,
}

// What a reader of structure needs of a meaning, whatever kind a bracket is of.
#[derive(Clone, Copy)]
pub enum Role {
    Unpaired,
    Opening,
    Closing,
    Refused,
}

// One arm for each number: an arm for neighbours would be a range, and would not tell which of them it has.
#[tactic(auto, unfolding(crate::specs::Character::meaning_of))]
pub fn meaning_of(byte: u8) -> Meaning
    ensures { result ≡ meaning_of byte }
{
    match byte {
        60 => Meaning::OpeningAngle,
        62 => Meaning::ClosingAngle,
        40 => Meaning::OpeningRound,
        41 => Meaning::ClosingRound,
        91 => Meaning::OpeningSquare,
        93 => Meaning::ClosingSquare,
        123 => Meaning::OpeningCurly,
        125 => Meaning::ClosingCurly,
        46 => Meaning::Unpaired,
        44 => Meaning::Unpaired,
        58 => Meaning::Unpaired,
        95 => Meaning::Unpaired,
        45 => Meaning::Unpaired,
        126 => Meaning::Unpaired,
        _ => Meaning::Refused,
    }
}

pub fn role_in(meaning: Meaning) -> Role
    ensures { result ≡ role_in meaning }
{
    match meaning {
        Meaning::OpeningAngle => Role::Opening,
        Meaning::ClosingAngle => Role::Closing,
        Meaning::OpeningRound => Role::Opening,
        Meaning::ClosingRound => Role::Closing,
        Meaning::OpeningSquare => Role::Opening,
        Meaning::ClosingSquare => Role::Closing,
        Meaning::OpeningCurly => Role::Opening,
        Meaning::ClosingCurly => Role::Closing,
        Meaning::Unpaired => Role::Unpaired,
        Meaning::Refused => Role::Refused,
    }
}
