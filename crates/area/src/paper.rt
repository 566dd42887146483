//! The areas in the paper's order of work: the pairs of the seed by rising q, and under each pair its gaps from right to left. A gap of a pair is a
//! run of neighbouring children of its node that are outside the span. Each function writes from a place of the output on, and answers the place behind.
ghost use Rattle.std.specs.Prelude.{◌≡◌, ◌≤◌, ◌<◌, length};
ghost use Rattle.std.proofs.lemmas.List.Edits.{sets};
ghost use Rattle.write.specs.Puts.{Puts, Room};
ghost use Rattle.seed.specs.AreaList.{bytes_of};
ghost use Rattle.area.specs.inner.Walk as walk;

use super::write_row;
use seed::leaf_at;

/// Writes the area that begins at a, where the subtree of a child does, if the child is outside the span and an area begins there.
fn write_child(g: &[usize], h: &[usize], out: &mut [u8], child: usize, a: usize, at: usize) -> usize
    requires child { child < length g.now }
    requires start { a < length g.now }
    requires few_g { length g.now ≤ 256 }
    requires few_h { length h.now ≤ 256 }
    requires room { Room (bytes_of (walk.child_box g.now h.now child a)) at out.old }
    ensures { Puts (bytes_of (walk.child_box g.now h.now child a)) at out.old out.new result }
{
    if g[child] == 0 {
        return at;
    }
    write_row(g, h, out, a, at)
}

/// Writes the areas under the pair whose node in Q is x: its children from right to left, each with its whole subtree passed at once, since the pairs
/// in there have had their turn.
fn write_under(l: &[u8], g: &[usize], h: &[usize], out: &mut [u8], x: u8, at: usize) -> usize
    requires trees { walk.Trees l.now g.now h.now }
    requires room { Room (bytes_of (walk.boxes_under l.now g.now h.now x)) at out.old }
    requires node { x < length l.now }
    ensures { Puts (bytes_of (walk.boxes_under l.now g.now h.now x)) at out.old out.new result }
{
    let low = leaf_at(l, x as usize);
    let mut next = at;
    let mut end = x as usize;
    // The step hangs on where each child's subtree starts, so this is no `for`.
    while low < end {
        let child = end - 1;
        let a = leaf_at(l, child);
        next = write_child(g, h, out, child, a, next);
        end = a;
    }
    next
}

/// Writes all areas, pair by pair.
pub fn write(l: &[u8], nodes: &[u8], g: &[usize], h: &[usize], out: &mut [u8])
    requires walkable { walk.Walkable l.now nodes.now g.now h.now }
    requires room { Room (bytes_of (walk.boxes_in_order l.now nodes.now g.now h.now)) 0 out.old }
    ensures { out.new ≡ sets out.old 0 (bytes_of (walk.boxes_in_order l.now nodes.now g.now h.now)) }
{
    let mut at = 0;
    for &node in nodes {
        at = write_under(l, g, h, out, node, at);
    }
}
