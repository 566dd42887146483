//! The waiting jobs of one kind.
ghost use Rattle.std.specs.Prelude.{◌≡◌, [], ◌∷◌, ◌++◌, ◌<◌, ◌≤◌, drop, length};
ghost use Rattle.queue.specs.Jobs.{is_empty, oldest};

use super::{Job, Kind, Taken};
use std::marker::Model;

/// How many jobs wait together at most.
pub const PLACES: usize = 16;

/// The waiting jobs, the oldest first. In the places behind them both numbers are 0: so the jobs tell the fields, and a lane can be copied.
#[derive(Clone, Copy, Debug)]
pub struct Lane {
    jobs: [Job; PLACES],
    count: usize,
}

impl Model for Lane {
    ghost use Rattle.std.specs.Prelude.{List};
    ghost use Rattle.queue.specs.declared.Job.{Job};

    ghost Value = { List Job };

    ghost use Rattle.queue.specs.Lanes.{jobs_of, lane_of, IsLane, lane_back};

    ghost view = { jobs_of };

    ghost invariant = { IsLane };

    ghost inverse = { lane_of };

    ghost inverse_ok = { lane_back };
}

/// A lane in which nobody waits.
pub fn empty() -> Lane
    ensures { result ≡ [] }
{
    Lane {
        jobs: [Job {
            query: 0,
            structure: 0,
        }; PLACES],
        count: 0,
    }
}

impl Lane {
    /// How many jobs wait.
    pub fn count(&self) -> usize
        ensures count { result ≡ length self.now }
        ensures few { result ≤ 16 }
    {
        self.count
    }

    /// Whether nobody waits.
    pub fn is_empty(&self) -> bool
        ensures { result ≡ is_empty self.now }
    {
        self.count == 0
    }

    /// Puts a job behind the others.
    pub fn push(&mut self, job: Job)
        requires room { length self.old < 16 }
        ensures { self.new ≡ self.old ++ job ∷ [] }
    {
        self.jobs[self.count] = job;
        self.count += 1;
    }

    /// Takes the oldest job, which is of this kind.
    pub fn take_oldest(&mut self, kind: Kind) -> Option<Taken>
        ensures takes { result ≡ oldest kind self.old }
        ensures leaves { self.new ≡ drop 1 self.old }
    {
        if self.count == 0 {
            return None;
        }
        let job = self.jobs[0];
        self.jobs.copy_within(1.., 0);
        self.jobs[PLACES - 1] = Job {
            query: 0,
            structure: 0,
        };
        self.count -= 1;
        Some(Taken { kind, job })
    }
}
