//! Two texts and a deck to two trees and a table: what an opening rests on.
#![tactic(auto)]

mod seeds;
pub mod texts;

ghost use Rattle.dealing.specs.Deal.{DealsOn, Deals};

use answer::Refusal;
use seeds::judge_seeds;
use table::Table;
use texts::read_both;
use tree::Tree;

/// Two trees, and the seeds of a deck, all present.
#[derive(Clone, Copy)]
pub struct Dealt {
    pub q: Tree,
    pub t: Tree,
    pub table: Table,
}

/// The seeds of a deck on two trees, by grounds 5 to 8, then 11, 15, 25 and 16 to 19 seed by seed.
pub fn deal_on(q: Tree, t: Tree, deck: &[u8]) -> Result<Table, Refusal>
    ensures { DealsOn q t deck.now result }
{
    let table = deck::read(deck)?;
    judge_seeds(q, t, table)?;
    Ok(table)
}

/// Two texts and a deck, by grounds 1 to 4 and 24 of Q, then of T, and those of the deck on the two trees.
pub fn deal(q: &[u8], t: &[u8], deck: &[u8]) -> Result<Dealt, Refusal>
    ensures { Deals q.now t.now deck.now result }
{
    let trees = read_both(q, t)?;
    let table = deal_on(trees.q, trees.t, deck)?;
    Ok(Dealt {
        q: trees.q,
        t: trees.t,
        table,
    })
}
