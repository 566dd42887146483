//! A session on two structures: seeds are added, withdrawn, brought back and rescored, and the best chain of those present is worked out.
#![tactic(auto)]

mod changing;
mod judging;

ghost use Rattle.std.specs.Prelude.{◌≡◌, ◌+◌, length, IfOk};
ghost use Rattle.answer.specs.Refusal.{answer_in};
ghost use Rattle.seed.specs.Pairs.{pairs_of};
ghost use Rattle.area.specs.declared.Order.TheVariants.{RisingA, Paper};
ghost use Rattle.chain.specs.Opening.{opening, deck_opening, opening_answer, opened, Opens, RefusedWith};
ghost use Rattle.chain.specs.Acts.{add, rescore, withdraw, bring_back};
ghost use Rattle.chain.specs.Looking.{Chains, Lists, Writes, shown_of};
ghost use Rattle.chain.specs.View.{view, Sound, Does};

use answer::Refusal;
use area::Order;
use best::Best;
use changing::{change, move_to, session_on};
use dealing::deal;
use dealing::texts::read_both;
use judging::{judge_number, judge_rescore};
use std::marker::Model;
use table::{Summary, Table, empty, rescored, summary_at};
use tree::{Tree, single_tree};

/// Two trees, the seeds given out with their scores and whether they are present, and how many changes there were.
#[derive(Clone, Copy)]
pub struct Session {
    q: Tree,
    t: Tree,
    table: Table,
    changes: usize,
}

impl Model for Session {
    ghost use Rattle.chain.specs.Fields.{SessionFields};

    ghost Value = { SessionFields };

    ghost use Rattle.chain.specs.Handed.{session_fields, session_inside, WasHanded};

    ghost view = { session_fields };

    ghost invariant = { WasHanded };

    ghost inverse = { session_inside };
}

/// What a change by value answers, and the session that it hands over: the very session beside a refusal.
#[derive(Clone, Copy)]
pub struct Changed {
    pub answer: Result<(), Refusal>,
    pub session: Session,
}

/// What an add by value answers, the seed's number if it is accepted, and the session that it hands over.
#[derive(Clone, Copy)]
pub struct Added {
    pub answer: Result<usize, Refusal>,
    pub session: Session,
}

/// Why an opening was refused, and the session of "." and ".", which is handed over beside the refusal.
#[derive(Clone, Copy)]
pub struct RefusedOpening {
    pub refusal: Refusal,
    pub session: Session,
}

impl From<RefusedOpening> for Refusal {
    ghost from_gives = { λ refused refusal. refusal ≡ refused.refusal };

    fn from(refused: RefusedOpening) -> Refusal {
        refused.refusal
    }
}

impl From<Refusal> for RefusedOpening {
    ghost from_gives = { RefusedWith };

    fn from(refusal: Refusal) -> RefusedOpening {
        let tree = single_tree();
        RefusedOpening {
            refusal,
            session: session_on(tree, tree, empty()),
        }
    }
}

/// A session on two texts without seeds.
pub fn open(q: &[u8], t: &[u8]) -> Result<Session, RefusedOpening>
    ensures { Opens (opening q.now t.now) (opening_answer result) (opened result) }
{
    let both = read_both(q, t)?;
    Ok(session_on(both.q, both.t, empty()))
}

/// A session on two texts with the seeds of a deck, all present.
pub fn open_deck(q: &[u8], t: &[u8], deck: &[u8]) -> Result<Session, RefusedOpening>
    ensures { Opens (deck_opening q.now t.now deck.now) (opening_answer result) (opened result) }
{
    let dealt = deal(q, t, deck)?;
    Ok(session_on(dealt.q, dealt.t, dealt.table))
}

// The open areas of a seed in an order.
fn list_areas(s: Session, number: usize, order: Order, out: &mut [u8]) -> Result<usize, Refusal>
    ensures { Lists (view s) order number out.old out.new result }
{
    judge_number(&s, number)?;
    area::areas(s.q, s.t, s.table, number - 1, order, out)
}

impl Session {
    /// Adds the seed of these q and t, as far as both lists go.
    pub fn added(mut self, qs: &[u8], ts: &[u8], score: i32) -> Added
        ensures does { Does self (add (pairs_of qs.now ts.now) score) (answer_in result.answer) result.session }
        ensures number { IfOk result.answer (λ number. number ≡ length (view self).rows + 1) }
    {
        let answer = changing::add(&mut self, qs, ts, score);
        Added {
            answer,
            session: self,
        }
    }

    /// Withdraws a present seed.
    pub fn withdraw(&mut self, number: usize) -> Result<(), Refusal>
        ensures { Does self.old (withdraw number) (answer_in result) self.new }
    {
        move_to(self, number, false)
    }

    /// Makes a withdrawn seed present again.
    pub fn bring_back(&mut self, number: usize) -> Result<(), Refusal>
        ensures { Does self.old (bring_back number) (answer_in result) self.new }
    {
        move_to(self, number, true)
    }

    /// Gives the seed another score, present or not.
    pub fn rescore(&mut self, number: usize, score: i32) -> Result<(), Refusal>
        ensures { Does self.old (rescore number score) (answer_in result) self.new }
    {
        judge_rescore(self, number, score)?;
        change(self, rescored(self.table, number - 1, score));
        Ok(())
    }

    /// Withdraws by value.
    pub fn withdrawn(mut self, number: usize) -> Changed
        ensures { Does self (withdraw number) (answer_in result.answer) result.session }
    {
        let answer = self.withdraw(number);
        Changed {
            answer,
            session: self,
        }
    }

    /// Brings back by value.
    pub fn brought_back(mut self, number: usize) -> Changed
        ensures { Does self (bring_back number) (answer_in result.answer) result.session }
    {
        let answer = self.bring_back(number);
        Changed {
            answer,
            session: self,
        }
    }

    /// Rescores by value.
    pub fn rescored(mut self, number: usize, score: i32) -> Changed
        ensures { Does self (rescore number score) (answer_in result.answer) result.session }
    {
        let answer = self.rescore(number, score);
        Changed {
            answer,
            session: self,
        }
    }

    /// The best chain of the seeds that are present: its total, and for each number whether the chain has it.
    pub fn best_chain(self, scratch: &mut [u64]) -> Result<Best, Refusal>
        ensures { Chains (view self) scratch.old scratch.new result }
    {
        best::best_chain(
            self.q,
            self.t,
            &self.table.qs,
            &self.table.ts,
            &self.table.bounds,
            &self.table.scores,
            &self.table.present,
            self.table.seeds,
            scratch,
        )
    }

    /// The open areas of a seed, present or not, written as four bytes each, by rising a: how many they are.
    pub fn areas(self, number: usize, out: &mut [u8]) -> Result<usize, Refusal>
        ensures { Lists (view self) RisingA number out.old out.new result }
    {
        list_areas(self, number, Order::RisingA, out)
    }

    /// The same areas in the paper's order of work.
    pub fn areas_in_paper_order(self, number: usize, out: &mut [u8]) -> Result<usize, Refusal>
        ensures { Lists (view self) Paper number out.old out.new result }
    {
        list_areas(self, number, Order::Paper, out)
    }

    /// The deck of the present seeds in plain form: its length.
    pub fn write_deck(self, out: &mut [u8]) -> Result<usize, Refusal>
        ensures { Writes (view self) out.old out.new result }
    {
        plain::write(self.table, out)
    }

    /// What the row of a seed says, present or not: its score, its last pair, how many pairs it has, and its presence.
    pub fn row(self, number: usize) -> Result<Summary, Refusal>
        ensures { result ≡ shown_of (view self) number }
    {
        judge_number(&self, number)?;
        Ok(summary_at(self.table, number - 1))
    }
}
