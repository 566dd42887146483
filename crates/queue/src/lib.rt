//! A queue for the panel: jobs wait as urgent or ordinary, and each turn takes one.
#![tactic(auto)]

mod lane;

ghost use Rattle.std.specs.Prelude.{◌≡◌, cond, [], ◌∷◌, ◌++◌, suc, ◌+◌, ◌<◌, drop, length, eqb};
ghost use Rattle.queue.specs.Jobs.{is_empty, oldest};
ghost use Rattle.queue.specs.Handing.{HandedOver, FromStart, passes_by_count, Offers, Turns};

use answer::{Ground, Place, Refusal};
use lane::{Lane, PLACES, empty};
use std::marker::Model;

// After so many turns in a row the urgent jobs are passed over.
const ROW: usize = 3;

#[derive(Clone, Copy, Debug, PartialEq, Eq, Hash)]
pub enum Kind {
    Urgent,
    Ordinary,
}

/// A query number and a structure number.
#[derive(Clone, Copy, Debug, Default, PartialEq, Eq, Hash)]
pub struct Job {
    pub query: u16,
    pub structure: u16,
}

/// What a turn takes.
#[derive(Clone, Copy, Debug, PartialEq, Eq, Hash)]
pub struct Taken {
    pub kind: Kind,
    pub job: Job,
}

/// The waiting jobs of both kinds, and how many of the last turns in a row took an urgent job while an ordinary one waited.
#[derive(Clone, Copy, Debug)]
pub struct Queue {
    urgent: Lane,
    ordinary: Lane,
    in_row: usize,
}

impl Model for Queue {
    ghost use Rattle.queue.specs.Handing.{QueueView, view_of, FromStart};

    ghost Value = { QueueView };

    ghost view = { λ q. view_of q.urgent q.ordinary q.in_row };

    ghost invariant = { λ q. FromStart (view_of q.urgent q.ordinary q.in_row) };

    ghost inverse = { λ v. record { urgent = v.urgent; ordinary = v.ordinary; in_row = v.in_row } };
}

/// What an offer answers, and the queue that it hands over.
#[derive(Clone, Copy, Debug)]
pub struct Offered {
    pub answer: Result<(), Refusal>,
    pub queue: Queue,
}

/// What a turn took, and the queue that it hands over.
#[derive(Clone, Copy, Debug)]
pub struct Turned {
    pub taken: Option<Taken>,
    pub queue: Queue,
}

/// A queue in which nobody waits.
#[tactic(auto, using(crate::proofs::Handovers::at_start, crate::proofs::Handovers::start_handed))]
pub fn start() -> Queue
    ensures over { HandedOver result [] }
    ensures handed { FromStart result }
{
    Queue {
        urgent: empty(),
        ordinary: empty(),
        in_row: 0,
    }
}

impl Queue {
    /// Another queue in which the same jobs wait after the same turns.
    pub fn copied(&self) -> Queue
        ensures same { result ≡ self.now }
        ensures handed { FromStart result }
    {
        // Field by field: so the proof has what holds of every queue.
        Queue {
            urgent: self.urgent,
            ordinary: self.ordinary,
            in_row: self.in_row,
        }
    }

    // Whether every place is taken.
    fn is_full(&self) -> bool
        ensures { result ≡ eqb (length self.now.urgent + length self.now.ordinary) 16 }
    {
        self.urgent.count() + self.ordinary.count() == PLACES
    }

    // Whether the next turn passes the urgent jobs over: none waits, or the last three turns all took urgent ones while an ordinary one waited.
    fn passes_urgent(&self) -> bool
        ensures { result ≡ passes_by_count self.now }
    {
        self.urgent.is_empty() || self.in_row == ROW
    }

    // How many turns are in a row after one that takes an urgent job.
    fn row_after_urgent(&self) -> usize
        ensures { result ≡ cond (is_empty self.now.ordinary) 0 (suc self.now.in_row) }
    {
        if self.ordinary.is_empty() {
            0
        } else {
            self.in_row + 1
        }
    }

    /// Offers a job, which waits behind the others of its kind. Refused on ground 31, the queue stays as it was.
    #[tactic(auto, using(crate::proofs::Handovers::urgent_more, crate::proofs::Handovers::ordinary_more))]
    pub fn offer(&mut self, kind: Kind, query: u16, structure: u16) -> Result<(), Refusal>
        ensures { Offers self.old kind (record { query = query; structure = structure }) result self.new }
    {
        if self.is_full() {
            return Err(Ground::QueueFull.at(Place::Nothing));
        }
        let job = Job { query, structure };
        match kind {
            Kind::Urgent => self.urgent.push(job),
            Kind::Ordinary => self.ordinary.push(job),
        }
        Ok(())
    }

    /// Takes the job that is due, if any waits.
    #[tactic(auto, using(crate::proofs::Handovers::ordinary_less, crate::proofs::Handovers::urgent_less))]
    pub fn take_turn(&mut self) -> Option<Taken>
        ensures { Turns self.old result self.new }
    {
        if self.passes_urgent() {
            self.in_row = 0;
            return self.ordinary.take_oldest(Kind::Ordinary);
        }
        self.in_row = self.row_after_urgent();
        self.urgent.take_oldest(Kind::Urgent)
    }

    /// Offers a job to a queue by value, and hands the next one over.
    pub fn offered(mut self, kind: Kind, query: u16, structure: u16) -> Offered
        ensures { Offers self kind (record { query = query; structure = structure }) result.answer result.queue }
    {
        let answer = self.offer(kind, query, structure);
        Offered {
            answer,
            queue: self,
        }
    }

    /// Takes the job that is due of a queue by value, and hands the next one over.
    pub fn turned(mut self) -> Turned
        ensures { Turns self result.taken result.queue }
    {
        let taken = self.take_turn();
        Turned { taken, queue: self }
    }
}
