//! What nudges do to the best total, and what is counted of it.
use test_random::tally::{Count, counted, marked, none, with_count};
use test_words::plain::{more, plus};
use test_words::{blank, print, with_bytes};

/// The calls of nudges, and of those accepted how many moved the total as far as it may move and how many left it where it might have moved,
/// each for scores raised and lowered and for seeds withdrawn and brought back; and how many were of a score below 0.
#[derive(Clone, Copy)]
pub struct Moves {
    pub count: Count,
    pub reached: [usize; 4],
    pub unmoved: [usize; 4],
    pub negative: usize,
}

pub fn no_moves() -> Moves {
    Moves {
        count: none(),
        reached: [0; 4],
        unmoved: [0; 4],
        negative: 0,
    }
}

/// The total before a nudge and after it, and how far it may rise and fall.
#[derive(Clone, Copy)]
pub struct Move {
    pub from: usize,
    pub to: usize,
    pub up: usize,
    pub down: usize,
}

fn is_within(m: Move) -> bool {
    m.to <= plus(m.from, m.up) && m.from <= plus(m.to, m.down)
}

fn is_reached(m: Move) -> bool {
    if m.from < m.to {
        m.to == plus(m.from, m.up)
    } else {
        m.to < m.from && m.from == plus(m.to, m.down)
    }
}

fn is_unmoved(m: Move) -> bool {
    m.from == m.to && 0 < plus(m.up, m.down)
}

fn one_if(n: usize, one: bool) -> usize {
    if one { more(n) } else { n }
}

// One more at this way, if it counts.
fn with_way(counts: [usize; 4], way: usize, one: bool) -> [usize; 4] {
    let mut next = counts;
    if way < 4 {
        let before = counts[way];
        next[way] = one_if(before, one);
    }
    next
}

/// One nudge more of a way, refused on this ground or, if it is 0, accepted.
pub fn with_move(
    rt: &impl Print,
    all: Moves,
    m: Move,
    way: usize,
    below_zero: bool,
    ground: usize,
) -> Moves {
    let count = all.count;
    let reached = all.reached;
    let unmoved = all.unmoved;
    let accepted = ground == 0;
    Moves {
        count: marked(
            rt,
            counted(rt, count, ground, true),
            is_within(m),
            b"a total",
        ),
        reached: with_way(reached, way, is_reached(m)),
        unmoved: with_way(unmoved, way, is_unmoved(m)),
        negative: one_if(all.negative, accepted && below_zero),
    }
}

// A line of what was counted by the way.
fn print_ways(rt: &impl Print, what: &[u8], counts: [usize; 4]) {
    let raised = with_count(with_bytes(blank(), what), counts[0], b" raised, ");
    let lowered = with_count(raised, counts[1], b" lowered, ");
    let withdrawn = with_count(lowered, counts[2], b" withdrawn, ");
    print(rt, with_count(withdrawn, counts[3], b" brought back\n"));
}

/// Lines with what was counted of the totals.
pub fn print_moves(rt: &impl Print, all: Moves) {
    let reached = all.reached;
    let unmoved = all.unmoved;
    print_ways(rt, b"moved as far as may be: ", reached);
    print_ways(rt, b"left where it might have moved: ", unmoved);
    print(
        rt,
        with_count(blank(), all.negative, b" accepted of a score below 0\n"),
    );
}
