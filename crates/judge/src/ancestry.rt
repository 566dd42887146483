//! Ancestry between the pairs of a list whose q and t rise (ground 17). The listed nodes below a node stand in a row directly before it, so
//! ancestry is alike between all pairs exactly if each row begins at the same place in Q as in T.
ghost use Rattle.std.specs.Prelude.{◌≡◌, ◌<◌, ◌≤◌, length, get_or};
ghost use Rattle.answer.specs.Tells.{Tells};
ghost use Rattle.tree.specs.Nested.{leaf};
ghost use Rattle.seed.specs.Tests as test;
ghost use Rattle.seed.specs.Pairs.{pairs_of};
ghost use Rattle.judge.specs.inner.Steps.{Cut, Ups, Rows, Risen};

use seed::leaf_at;

/// Where the row of the nodes below the node at a place begins. A node of the row is passed together with its own row.
fn row_start(l: &[u8], xs: &[u8], rows: &[u8; 256], place: usize) -> usize
    requires rows { Rows l.now xs.now rows.now place }
    requires place_in { place < length xs.now }
    ensures { Cut (length xs.now) xs.now (leaf l.now (get_or xs.now place 0)) result }
{
    let low = leaf_at(l, xs[place] as usize);
    let mut start = place;
    // A `while`: a step passes a whole row, whose beginning was found before.
    while 0 < start {
        if (xs[start - 1] as usize) < low {
            return start;
        }
        start = rows[start - 1] as usize;
    }
    0
}

/// Whether just the first `count` nodes of a rising list lie before a number.
fn cuts(xs: &[u8], low: usize, count: usize) -> bool
    requires rising { Ups (length xs.now) xs.now }
    requires within { count ≤ length xs.now }
    ensures { Tells result (Cut (length xs.now) xs.now low count) }
{
    (count == 0 || (xs[count - 1] as usize) < low)
        && (count == xs.len() || low <= xs[count] as usize)
}

/// Whether ancestry is the same between any two pairs. The rows' beginnings are put into the lent array.
pub fn alike(lq: &[u8], lt: &[u8], qs: &[u8], ts: &[u8], rows: &mut [u8; 256]) -> bool
    requires { Risen lq.now lt.now qs.now ts.now }
    ensures { result ≡ test.alike lq.now lt.now (pairs_of qs.now ts.now) }
{
    for place in 0..qs.len() {
        let start = row_start(lq, qs, rows, place);
        let low = leaf_at(lt, ts[place] as usize);
        if !cuts(ts, low, start) {
            return false;
        }
        rows[place] = start as u8;
    }
    true
}
