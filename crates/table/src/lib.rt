//! The seeds given out, by number, held in flat arrays.
#![tactic(auto)]

mod parts;

ghost use Rattle.std.specs.Prelude.{◌≡◌, length, set};
ghost use Rattle.seed.specs.Seed.{last_pair};
ghost use Rattle.seed.specs.Pairs.{pairs_of};
ghost use Rattle.table.specs.Rows.{row_in, with_score, with_presence, summary_of, in_range};
ghost use Rattle.table.specs.Table.{nodes_of, rows_of, no_seeds, Laid, HasRows};

use parts::bound_at;
use seed::{Pair, last_pair};

/// Seed i, counted from 0, has the pairs from bounds[i] up to bounds[i + 1], and bounds[0] is 0. What the arrays hold beyond the seeds and
/// the pairs that are counted is free.
#[derive(Clone, Copy)]
pub struct Table {
    pub seeds: usize,
    pub pairs: usize,
    pub qs: [u8; 1024],
    pub ts: [u8; 1024],
    pub bounds: [u16; 65],
    pub scores: [i32; 64],
    pub present: [bool; 64],
}

/// What a row says of its seed without listing the pairs.
#[derive(Clone, Copy)]
pub struct Summary {
    pub score: i32,
    pub last: Pair,
    pub pairs: usize,
    pub present: bool,
}

/// The table without seeds. A seed is present when it is added, and so is every place for one.
pub fn empty() -> Table
    ensures { result ≡ no_seeds }
{
    Table {
        seeds: 0,
        pairs: 0,
        qs: [0; 1024],
        ts: [0; 1024],
        bounds: [0; 65],
        scores: [0; 64],
        present: [true; 64],
    }
}

/// Whether a score is one that a seed may have.
pub fn in_range(score: i32) -> bool
    ensures { result ≡ in_range score }
{
    -1000000 <= score && score <= 1000000
}

/// The nodes of the seed at place i in one tree, as the part of the array that holds them; none if there is no such seed.
pub fn nodes_of<'a>(nodes: &'a [u8], bounds: &'a [u16], i: usize) -> &'a [u8]
    ensures { result.now ≡ nodes_of nodes.now bounds.now i }
{
    if bounds.len() <= i {
        return &nodes[..0];
    }
    let to = bound_at(bounds, i + 1).min(nodes.len());
    let from = bound_at(bounds, i).min(to);
    &nodes[from..to]
}

/// The table with another score for the seed at a place, present or not.
pub fn rescored(table: Table, at: usize, score: i32) -> Table
    requires { Laid table }
    ensures { HasRows (set (rows_of table) at (with_score (row_in (rows_of table) at) score)) result }
{
    let mut next = table;
    if at < table.seeds {
        next.scores[at] = score;
    }
    next
}

/// The table with the seed at a place present, or withdrawn.
pub fn moved(table: Table, at: usize, to: bool) -> Table
    requires { Laid table }
    ensures { HasRows (set (rows_of table) at (with_presence (row_in (rows_of table) at) to)) result }
{
    let mut next = table;
    if at < table.seeds {
        next.present[at] = to;
    }
    next
}

/// How many pairs the seed at place i has, and the last of them: (0, 0) if there is none.
fn count_at<'a>(qs: &'a [u8], bounds: &'a [u16], i: usize) -> usize
    ensures { result ≡ length (nodes_of qs.now bounds.now i) }
{
    nodes_of(qs, bounds, i).len()
}

fn last_at<'a>(qs: &'a [u8], ts: &'a [u8], bounds: &'a [u16], i: usize) -> Pair
    ensures { result ≡ last_pair (pairs_of (nodes_of qs.now bounds.now i) (nodes_of ts.now bounds.now i)) }
{
    last_pair(nodes_of(qs, bounds, i), nodes_of(ts, bounds, i))
}

/// What the row of the seed at a place says; that of no row, if there is no such seed.
pub fn summary_at(table: Table, at: usize) -> Summary
    requires { Laid table }
    ensures { result ≡ summary_of (row_in (rows_of table) at) }
{
    if table.seeds <= at {
        return Summary {
            score: 0,
            last: Pair { q: 0, t: 0 },
            pairs: 0,
            present: false,
        };
    }
    Summary {
        score: table.scores[at],
        last: last_at(&table.qs, &table.ts, &table.bounds, at),
        pairs: count_at(&table.qs, &table.bounds, at),
        present: table.present[at],
    }
}
