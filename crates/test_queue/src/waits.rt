//! How long a job waits, and what is counted of offers and turns.
use super::definition::{Job, NONE, ORDINARY, Taken, URGENT};
use test_random::tally::{Count, counted, marked, none, with_count};
use test_words::plain::{fourfold, more, plus};
use test_words::{blank, print, with_bytes};

// The jobs of one kind: those taken, those of them that waited as many turns as may be, and how many of these had others of their kind before them.
#[derive(Clone, Copy)]
struct Waits {
    taken: usize,
    longest: usize,
    behind: usize,
}

// The offers, and by what they took the turns: urgent jobs, ordinary jobs, how many of these while an urgent job waited, and none.
#[derive(Clone, Copy)]
pub struct Served {
    pub count: Count,
    urgent: Waits,
    ordinary: Waits,
    passed: usize,
    none: usize,
}

fn no_waits() -> Waits {
    Waits {
        taken: 0,
        longest: 0,
        behind: 0,
    }
}

pub fn nobody_served() -> Served {
    Served {
        count: none(),
        urgent: no_waits(),
        ordinary: no_waits(),
        passed: 0,
        none: 0,
    }
}

// Within how many turns a job is taken: an ordinary one with k ordinary ones before it within 4(k + 1), an urgent one with u urgent ones before
// it within u + 2 + u / 3.
fn most(kind: u8, before: usize) -> usize {
    if kind == URGENT {
        return plus(plus(before, 2), before / 3);
    }
    fourfold(more(before))
}

// How many turns a job has waited, if the one after so many turns takes it.
fn waited(job: Job, turns: usize) -> usize {
    if turns < job.since {
        return 0;
    }
    more(turns - job.since)
}

fn with_wait(w: Waits, kind: u8, job: Job, turns: usize) -> Waits {
    let mut next = w;
    next.taken = more(w.taken);
    if waited(job, turns) == most(kind, job.before) {
        next.longest = more(w.longest);
        if 0 < job.before {
            next.behind = more(w.behind);
        }
    }
    next
}

// Whether a turn that takes a job comes in time: one that takes none does.
fn is_in_time(kind: u8, job: Job, turns: usize) -> bool {
    if kind == NONE {
        return true;
    }
    waited(job, turns) <= most(kind, job.before)
}

// One offer more, refused on this ground or, if it is 0, accepted.
pub fn with_offer(rt: &impl Print, s: Served, ground: usize, right: bool) -> Served {
    let count = s.count;
    let mut next = s;
    next.count = counted(rt, count, ground, right);
    next
}

// One turn more by what it takes, and whether an urgent job waited at it.
fn with_taken(s: Served, kind: u8, job: Job, turns: usize, urgent_waited: bool) -> Served {
    let urgent = s.urgent;
    let ordinary = s.ordinary;
    let mut next = s;
    if kind == URGENT {
        next.urgent = with_wait(urgent, kind, job, turns);
        return next;
    }
    if kind == ORDINARY {
        next.ordinary = with_wait(ordinary, kind, job, turns);
        if urgent_waited {
            next.passed = more(s.passed);
        }
        return next;
    }
    next.none = more(s.none);
    next
}

// The same after so many turns, and whether the library took just that.
pub fn with_turn(
    rt: &impl Print,
    s: Served,
    taken: Taken,
    turns: usize,
    urgent_waited: bool,
    right: bool,
) -> Served {
    let count = s.count;
    let job = taken.job;
    let in_time = is_in_time(taken.kind, job, turns);
    let mut next = with_taken(s, taken.kind, job, turns, urgent_waited);
    next.count = marked(rt, marked(rt, count, right, b"a turn"), in_time, b"a wait");
    next
}

// A line of what was counted of one kind.
fn print_waits(rt: &impl Print, what: &[u8], w: Waits) {
    let taken = with_count(with_bytes(blank(), what), w.taken, b" taken, ");
    let longest = with_count(taken, w.longest, b" waited as long as may be, ");
    print(
        rt,
        with_count(longest, w.behind, b" of these behind others\n"),
    );
}

// Lines with what was counted of the turns.
pub fn print_served(rt: &impl Print, s: Served) {
    let urgent = s.urgent;
    let ordinary = s.ordinary;
    print_waits(rt, b"urgent jobs: ", urgent);
    print_waits(rt, b"ordinary jobs: ", ordinary);
    let passed = with_count(
        blank(),
        s.passed,
        b" ordinary jobs taken while an urgent one waited, ",
    );
    print(rt, with_count(passed, s.none, b" turns that took none\n"));
}
