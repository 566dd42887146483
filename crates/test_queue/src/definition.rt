//! What a queue answers, straight by the words of the rule: the jobs of each kind wait in a plain list, the oldest first, and every turn
//! that was is kept.
use test_words::plain::{less, more, plus};

// How many jobs wait together at most.
pub const PLACES: usize = 16;

// How many turns are kept: more than a list of calls has.
const TURNS: usize = 256;

// The kinds of jobs. That of no job is that of a turn that answers none.
pub const NONE: u8 = 0;

pub const URGENT: u8 = 1;

pub const ORDINARY: u8 = 2;

// A waiting job, with how many of its kind stood before it and how many turns had been when it was offered.
#[derive(Clone, Copy)]
pub struct Job {
    pub query: u16,
    pub structure: u16,
    pub before: usize,
    pub since: usize,
}

// The jobs of one kind, as far as count.
#[derive(Clone, Copy)]
struct Jobs {
    count: usize,
    job: [Job; PLACES],
}

// A turn that was: the kind of the job that it took, and whether an ordinary job waited.
#[derive(Clone, Copy)]
struct PastTurn {
    took: u8,
    ordinary_waited: bool,
}

// What waits, and the turns that were, as far as turns.
#[derive(Clone, Copy)]
pub struct Waiting {
    urgent: Jobs,
    ordinary: Jobs,
    pub turns: usize,
    past: [PastTurn; TURNS],
}

// What a turn takes: a job of a kind, or none.
#[derive(Clone, Copy)]
pub struct Taken {
    pub kind: u8,
    pub job: Job,
}

fn no_job() -> Job {
    Job {
        query: 0,
        structure: 0,
        before: 0,
        since: 0,
    }
}

fn no_jobs() -> Jobs {
    Jobs {
        count: 0,
        job: [no_job(); PLACES],
    }
}

// A queue starts empty.
pub fn nobody() -> Waiting {
    let nothing = PastTurn {
        took: NONE,
        ordinary_waited: false,
    };
    Waiting {
        urgent: no_jobs(),
        ordinary: no_jobs(),
        turns: 0,
        past: [nothing; TURNS],
    }
}

fn together(w: Waiting) -> usize {
    plus(w.urgent.count, w.ordinary.count)
}

// Whether a job of either kind waits.
fn waits(w: Waiting) -> bool {
    0 < together(w)
}

pub fn urgent_waits(w: Waiting) -> bool {
    0 < w.urgent.count
}

// The ground of an offer, or 0: 31 while exactly 16 jobs wait.
pub fn ground(w: Waiting) -> usize {
    if together(w) == PLACES { 31 } else { 0 }
}

// The list with a job behind all others.
fn with_job(jobs: Jobs, query: u16, structure: u16, turns: usize) -> Jobs {
    let at = jobs.count;
    let mut next = jobs;
    if at < PLACES {
        next.job[at] = Job {
            query,
            structure,
            before: at,
            since: turns,
        };
        next.count = at + 1;
    }
    next
}

// What waits after an offer: a refused one leaves it.
pub fn offered(w: Waiting, kind: u8, query: u16, structure: u16) -> Waiting {
    let urgent = w.urgent;
    let ordinary = w.ordinary;
    let mut next = w;
    if ground(w) != 0 {
        return next;
    }
    if kind == URGENT {
        next.urgent = with_job(urgent, query, structure, w.turns);
    } else {
        next.ordinary = with_job(ordinary, query, structure, w.turns);
    }
    next
}

// Whether the turn so many turns back took an urgent job while an ordinary one waited: the last turn is one back.
fn took_urgent_while_ordinary_waited(w: Waiting, back: usize) -> bool {
    if w.turns < back {
        return false;
    }
    let at = w.turns - back;
    if TURNS <= at {
        return false;
    }
    let turn = w.past[at];
    turn.took == URGENT && turn.ordinary_waited
}

fn last_three(w: Waiting) -> bool {
    if !took_urgent_while_ordinary_waited(w, 1) {
        return false;
    }
    if !took_urgent_while_ordinary_waited(w, 2) {
        return false;
    }
    took_urgent_while_ordinary_waited(w, 3)
}

// The kind of the job that the next turn takes: urgent, unless there is none or the last three turns all took urgent ones, each while an
// ordinary job waited; then ordinary.
fn kind_due(w: Waiting) -> u8 {
    if !waits(w) {
        return NONE;
    }
    if w.urgent.count == 0 {
        return ORDINARY;
    }
    if last_three(w) {
        return ORDINARY;
    }
    URGENT
}

fn oldest(jobs: Jobs) -> Job {
    jobs.job[0]
}

// What the next turn takes.
pub fn due(w: Waiting) -> Taken {
    let urgent = w.urgent;
    let ordinary = w.ordinary;
    let kind = kind_due(w);
    match kind {
        URGENT => Taken {
            kind,
            job: oldest(urgent),
        },
        ORDINARY => Taken {
            kind,
            job: oldest(ordinary),
        },
        _ => Taken {
            kind,
            job: no_job(),
        },
    }
}

// The list without its oldest job: each of the others moves up.
fn without_oldest(jobs: Jobs) -> Jobs {
    let mut next = jobs;
    for k in 1..PLACES {
        let job = jobs.job[k];
        next.job[k - 1] = job;
    }
    next.count = less(jobs.count);
    next
}

// The past with one turn more, which took a job of this kind.
fn with_turn(w: Waiting, took: u8) -> Waiting {
    let at = w.turns;
    let ordinary_waited = 0 < w.ordinary.count;
    let mut next = w;
    if at < TURNS {
        next.past[at] = PastTurn {
            took,
            ordinary_waited,
        };
    }
    next.turns = more(at);
    next
}

// What waits after a turn.
pub fn turned(w: Waiting) -> Waiting {
    let urgent = w.urgent;
    let ordinary = w.ordinary;
    let kind = kind_due(w);
    let mut next = with_turn(w, kind);
    if kind == URGENT {
        next.urgent = without_oldest(urgent);
    }
    if kind == ORDINARY {
        next.ordinary = without_oldest(ordinary);
    }
    next
}
