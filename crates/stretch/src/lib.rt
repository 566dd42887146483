//! Stretches: the part of a text that spells a run of nodes.
#![tactic(auto)]

mod search;

ghost use Rattle.std.specs.Prelude.{◌≡◌};
ghost use Rattle.answer.specs.Refusal.{result_of};
ghost use Rattle.stretch.specs.Stretch.{check_of, HandsBack};

use answer::Refusal;
use search::locate;

/// The part of the text that spells the nodes a to b, or the empty part at its start where `check` refuses.
pub fn part(text: &[u8], a: usize, b: usize) -> &[u8]
    ensures { HandsBack text.entry a b result }
{
    match locate(text, a, b) {
        Ok(ends) => &text[ends.from..ends.to],
        Err(_) => &text[..0],
    }
}

/// Whether the nodes a to b of the text are a stretch.
#[tactic(auto, unfolding(crate::specs::Stretch::check_of))]
pub fn check(text: &[u8], a: usize, b: usize) -> Result<(), Refusal>
    ensures { result ≡ result_of (check_of text.now a b) tt }
{
    locate(text, a, b)?;
    Ok(())
}
