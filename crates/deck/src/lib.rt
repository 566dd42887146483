//! Decks: seeds in bytes, read into a table.
#![tactic(auto)]

mod bytes;
mod layout;
mod walk;

ghost use Rattle.deck.specs.Handed.{Reads};

use answer::{Ground, Place, Refusal};
use layout::bad_layout;
use table::Table;
use walk::walk;

/// The seeds of a deck, all present, or the first refusal.
pub fn read(deck: &[u8]) -> Result<Table, Refusal>
    ensures { Reads deck.now result }
{
    if bad_layout(deck) {
        return Err(Ground::DeckLayout.at(Place::Nothing));
    }
    walk(deck)
}
