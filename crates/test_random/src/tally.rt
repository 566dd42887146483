//! What the random cases count, and how it is printed.
use super::samples::{Sample, bytes_of};
use test_words::plain::{more, plus};
use test_words::{Text, blank, print, print_bytes, with_bytes, with_number};

// One more than the highest number of a ground.
const GROUNDS: usize = 32;

/// Calls accepted, calls refused by ground, and those that are not answered as they must be.
#[derive(Clone, Copy)]
pub struct Count {
    pub accepted: usize,
    pub by_ground: [usize; GROUNDS],
    pub wrong: usize,
}

/// What the random sessions count besides: those on an empty text, the seeds, the best chains compared, those of two seeds or more, those with
/// a tie, the open areas, and the seeds whose areas stand in another order in the paper's than by rising a.
#[derive(Clone, Copy)]
pub struct Seen {
    pub empty: usize,
    pub seeds: usize,
    pub chains: usize,
    pub longer: usize,
    pub ties: usize,
    pub areas: usize,
    pub reordered: usize,
}

/// What is counted from case to case.
#[derive(Clone, Copy)]
pub struct Counts {
    pub count: Count,
    pub seen: Seen,
}

pub fn none() -> Count {
    Count {
        accepted: 0,
        by_ground: [0; GROUNDS],
        wrong: 0,
    }
}

pub fn nothing() -> Seen {
    Seen {
        empty: 0,
        seeds: 0,
        chains: 0,
        longer: 0,
        ties: 0,
        areas: 0,
        reordered: 0,
    }
}

/// The first mistakes are printed, and all are counted.
pub fn marked(rt: &impl Print, c: Count, right: bool, what: &[u8]) -> Count {
    let mut next = c;
    if !right {
        if c.wrong < 20 {
            print_bytes(rt, b"WRONG: ");
            print_bytes(rt, what);
            print_bytes(rt, b"\n");
        }
        next.wrong = more(c.wrong);
    }
    next
}

/// One call more, refused on this ground or, if it is 0, accepted.
pub fn counted(rt: &impl Print, c: Count, ground: usize, right: bool) -> Count {
    let mut next = c;
    if ground == 0 {
        next.accepted = more(c.accepted);
    }
    if ground < GROUNDS {
        let before = c.by_ground[ground];
        next.by_ground[ground] = more(before);
    }
    marked(rt, next, right, b"an answer")
}

/// One session more, on two texts.
pub fn with_texts(s: Seen, q: Sample, t: Sample) -> Seen {
    let mut next = s;
    if q.len == 0 || t.len == 0 {
        next.empty = more(s.empty);
    }
    next
}

pub fn with_seeds(s: Seen, ground: usize) -> Seen {
    let mut next = s;
    if ground == 0 {
        next.seeds = more(s.seeds);
    }
    next
}

/// The areas of one seed more.
pub fn with_areas(s: Seen, n: usize, rises: bool) -> Seen {
    let mut next = s;
    if !rises {
        next.reordered = more(s.reordered);
    }
    next.areas = plus(s.areas, n);
    next
}

/// A number of what was counted, in a line.
pub fn with_count(t: Text, n: usize, what: &[u8]) -> Text {
    with_bytes(with_number(t, n), what)
}

fn with_refused(t: Text, c: Count) -> Text {
    let mut next = t;
    for (ground, &n) in c.by_ground.iter().enumerate().skip(1) {
        if 0 < n {
            next = with_count(with_bytes(next, b", "), n, b" refused on ");
            next = with_number(next, ground);
        }
    }
    next
}

/// What was counted of a group.
pub fn with_counts(t: Text, c: Count) -> Text {
    let accepted = with_count(t, c.accepted, b" accepted");
    let refused = with_refused(accepted, c);
    with_count(with_bytes(refused, b", "), c.wrong, b" wrong")
}

/// The same in a line.
pub fn print_count(rt: &impl Print, group: &[u8], c: Count) {
    let line = with_counts(with_bytes(blank(), group), c);
    print(rt, with_bytes(line, b"\n"));
}

/// A line with what else was counted.
pub fn print_seen(rt: &impl Print, s: Seen) {
    let empty = with_count(blank(), s.empty, b" on an empty text, ");
    let seeds = with_count(empty, s.seeds, b" seeds, ");
    let chains = with_count(seeds, s.chains, b" best chains, ");
    let longer = with_count(chains, s.longer, b" of two seeds or more, ");
    let ties = with_count(longer, s.ties, b" with a tie, ");
    let areas = with_count(ties, s.areas, b" open areas, ");
    print(
        rt,
        with_count(
            areas,
            s.reordered,
            b" seeds whose two lists of areas differ\n",
        ),
    );
}

/// The two texts of a session are printed if more is wrong after it than before.
pub fn print_if_wrong(rt: &impl Print, before: Count, after: Count, q: Sample, t: Sample) {
    if before.wrong < after.wrong {
        print_sample(rt, b"  in a session on ", q);
        print_sample(rt, b"  and ", t);
    }
}

pub fn print_sample(rt: &impl Print, what: &[u8], sample: Sample) {
    print_bytes(rt, what);
    print_bytes(rt, bytes_of(&sample));
    print_bytes(rt, b"\n");
}
