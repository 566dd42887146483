//! The open areas of a seed. Each node is given the number of its gap once; then two nodes fit exactly if their gaps are the same and not 0, so that a
//! pair of nodes costs one comparison. Below, g and h are the gaps of the nodes of Q and of T, by their numbers.
#![tactic(auto)]

mod paper;

ghost use Rattle.std.specs.Prelude.{◌≡◌, ◌≤◌, ◌<◌, length, position};
ghost use Rattle.std.proofs.lemmas.List.Edits.{sets};
ghost use Rattle.write.specs.Puts.{Puts, Room};
ghost use Rattle.tree.specs.Reading.{leaves_of};
ghost use Rattle.seed.specs.Pairs.{pairs_of, Held};
ghost use Rattle.seed.specs.AreaList.{first_below, last_below, bytes_of};
ghost use Rattle.seed.specs.AreaList as lists;
ghost use Rattle.table.specs.Rows.{row_in};
ghost use Rattle.table.specs.Table.{rows_of, Kept};
ghost use Rattle.area.specs.PaperOrder.{areas_by};
ghost use Rattle.area.specs.inner.Boxes as boxes;
ghost use Rattle.area.specs.inner.Walk as walk;
ghost use Rattle.area.specs.Listed.{ListedRight};

use answer::{Ground, Place, Refusal};
use gap::gaps_of;
use seed::pair_count;
use table::{Table, nodes_of};
use tree::Tree;
use write::put_word;

/// By rising a, or in the paper's order of work: by rising q of the nearest pair above the area, and under one pair from right to left.
#[derive(Clone, Copy)]
pub enum Order {
    RisingA,
    Paper,
}

/// Whether nodes with these gaps fit.
#[tactic(auto, unfolding(crate::specs::inner::Boxes::same_gap))]
fn meets(x: usize, y: usize) -> bool
    ensures { result ≡ boxes.same_gap x y }
{
    x == y && x != 0
}

/// The first node that fits one whose gap is x.
fn first_meeting(x: usize, g: &[usize]) -> Option<usize>
    ensures { result ≡ position (boxes.same_gap x) g.now }
{
    g.iter().position(|&y| meets(x, y))
}

/// The first node that fits one whose gap is x, or how many nodes there are if none does.
fn first_like(x: usize, g: &[usize]) -> usize
    ensures { result ≡ first_below (boxes.like x g.now) (length g.now) }
{
    first_meeting(x, g).unwrap_or(g.len())
}

/// The last node that fits one whose gap is x, or 0 if none does.
fn last_like(x: usize, g: &[usize]) -> usize
    ensures { result ≡ last_below (boxes.like x g.now) (length g.now) }
{
    for k in (0..g.len()).rev() {
        if meets(x, g[k]) {
            return k;
        }
    }
    0
}

/// Whether an area begins at node a of Q, the first node of T that fits it being c.
fn begins(g: &[usize], h: &[usize], a: usize, c: usize) -> bool
    requires { a < length g.now }
    ensures { result ≡ lists.begins (boxes.meet g.now h.now) (length h.now) a c }
{
    c < h.len() && (a == 0 || !meets(g[a - 1], h[c]))
}

/// How many areas begin at node a of Q: one or none.
fn count_row(g: &[usize], h: &[usize], a: usize) -> usize
    requires { a < length g.now }
    ensures { result ≡ length (boxes.box_from g.now h.now a) }
{
    let c = first_like(g[a], h);
    if begins(g, h, a, c) { 1 } else { 0 }
}

/// How many areas there are.
fn count(g: &[usize], h: &[usize]) -> usize
    requires { length g.now ≤ 256 }
    ensures { result ≡ length (boxes.boxes_below g.now h.now (length g.now)) }
{
    let mut count = 0;
    for a in 0..g.len() {
        count += count_row(g, h, a);
    }
    count
}

/// Writes the area that begins at node a of Q, if one does, from a place of the output on, and answers the place behind it.
fn write_row(g: &[usize], h: &[usize], out: &mut [u8], a: usize, at: usize) -> usize
    requires row { a < length g.now }
    requires few_g { length g.now ≤ 256 }
    requires few_h { length h.now ≤ 256 }
    requires room { Room (bytes_of (boxes.box_from g.now h.now a)) at out.old }
    ensures { Puts (bytes_of (boxes.box_from g.now h.now a)) at out.old out.new result }
{
    let c = first_like(g[a], h);
    if !begins(g, h, a, c) {
        return at;
    }
    let b = last_like(h[c], g);
    let d = last_like(g[a], h);
    let bytes = [a as u8, b as u8, c as u8, d as u8];
    put_word(out, at, &bytes[..])
}

/// Writes all areas by rising a.
fn write(g: &[usize], h: &[usize], out: &mut [u8])
    requires few_g { length g.now ≤ 256 }
    requires few_h { length h.now ≤ 256 }
    requires room { Room (bytes_of (boxes.boxes_below g.now h.now (length g.now))) 0 out.old }
    ensures { out.new ≡ sets out.old 0 (bytes_of (boxes.boxes_below g.now h.now (length g.now))) }
{
    let mut at = 0;
    for a in 0..g.len() {
        at = write_row(g, h, out, a, at);
    }
}

/// Writes all areas in an order. The nodes are those of the seed in Q, by whose leftmost leaves l the paper's order goes.
fn write_by(l: &[u8], nodes: &[u8], g: &[usize], h: &[usize], order: Order, out: &mut [u8])
    requires walkable { walk.Walkable l.now nodes.now g.now h.now }
    requires room { Room (bytes_of (walk.boxes_by order l.now nodes.now g.now h.now)) 0 out.old }
    ensures { out.new ≡ sets out.old 0 (bytes_of (walk.boxes_by order l.now nodes.now g.now h.now)) }
{
    match order {
        Order::RisingA => write(g, h, out),
        Order::Paper => paper::write(l, nodes, g, h, out),
    }
}

/// Lists the areas, if the output has room for them: they are as many in either order.
fn list(
    l: &[u8],
    nodes: &[u8],
    g: &[usize],
    h: &[usize],
    order: Order,
    out: &mut [u8],
) -> Result<usize, Refusal>
    requires walkable { walk.Walkable l.now nodes.now g.now h.now }
    requires as_many { walk.AsMany l.now nodes.now g.now h.now }
    ensures { ListedRight (walk.boxes_by order l.now nodes.now g.now h.now) out.old result out.new }
{
    let count = count(g, h);
    if out.len() < count * 4 {
        return Err(Ground::OutputShort.at(Place::Nothing));
    }
    write_by(l, nodes, g, h, order, out);
    Ok(count)
}

/// Lists the open areas of the seed of these q and t, four bytes each, and answers how many there are.
fn areas_of<'a>(
    q: Tree,
    t: Tree,
    qs: &'a [u8],
    ts: &'a [u8],
    order: Order,
    out: &mut [u8],
) -> Result<usize, Refusal>
    requires { Held q t (pairs_of qs.now ts.now) }
    ensures { ListedRight (areas_by order (leaves_of q) (leaves_of t) (pairs_of qs.now ts.now)) out.old result out.new }
{
    let k = pair_count(qs, ts);
    let gaps = gaps_of(q, t, qs, ts);
    let g = gaps.q;
    let h = gaps.t;
    let n = q.node_count();
    let m = t.node_count();
    list(q.leaves(), &qs[..k], &g[..n], &h[..m], order, out)
}

/// Lists the open areas of the seed at a place of a table, present or not, and answers how many there are: none if there is no such seed.
pub fn areas(
    q: Tree,
    t: Tree,
    table: Table,
    at: usize,
    order: Order,
    out: &mut [u8],
) -> Result<usize, Refusal>
    requires { Kept q t table }
    ensures { ListedRight (areas_by order (leaves_of q) (leaves_of t) (row_in (rows_of table) at).pairs) out.old result out.new }
{
    if table.seeds <= at {
        return Ok(0);
    }
    let qs = nodes_of(&table.qs, &table.bounds, at);
    let ts = nodes_of(&table.ts, &table.bounds, at);
    areas_of(q, t, qs, ts, order, out)
}
