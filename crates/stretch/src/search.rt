//! Finding the bytes of a text that spell a run of nodes.
ghost use Rattle.std.specs.Prelude.{◌≡◌, ◌≤◌, ◌<◌, length};
ghost use Rattle.answer.specs.Refusal.{result_of};
ghost use Rattle.stretch.specs.inner.Scan.{ends_of, own_bytes, counted, unmoved, scan_to, ends_in, LocatedRight};
ghost use Rattle.stretch.specs.Stretch.{located_in};

use answer::{Ground, Place, Refusal};
use character::{Role, meaning_of, role_in};
use tree::read;

/// How far a scan has come: the byte it stands at, the nodes that end before it, and the bytes of those from node a on.
#[derive(Clone, Copy)]
pub struct Scan {
    pub at: usize,
    pub nodes: usize,
    pub width: usize,
}

/// The bytes that spell a run of nodes: from one on, and up to another.
#[derive(Clone, Copy)]
pub struct Ends {
    pub from: usize,
    pub to: usize,
}

/// How many nodes a byte ends.
fn ends_of(role: Role) -> usize
    ensures { result ≡ ends_of role }
{
    match role {
        Role::Unpaired => 1,
        Role::Opening => 0,
        Role::Closing => 1,
        Role::Refused => 0,
    }
}

/// How many bytes the node has that a byte ends.
fn bytes_of(role: Role) -> usize
    ensures { result ≡ own_bytes role }
{
    match role {
        Role::Unpaired => 1,
        Role::Opening => 0,
        Role::Closing => 2,
        Role::Refused => 0,
    }
}

/// One byte passed: a node that ends there counts, and so do its bytes if its number is a or more.
fn count_byte(c: Scan, a: usize, byte: u8) -> Scan
    requires { (c.at < 4096) × (c.nodes < 4096) × (c.width < 4096) }
    ensures { result ≡ counted a byte c }
{
    let role = role_in(meaning_of(byte));
    let nodes = c.nodes + ends_of(role);
    if c.nodes < a {
        return Scan {
            at: c.at + 1,
            nodes,
            width: c.width,
        };
    }
    Scan {
        at: c.at + 1,
        nodes,
        width: c.width + bytes_of(role),
    }
}

/// Passes the bytes up to the one that ends node b.
fn scan_to(text: &[u8], a: usize, b: usize) -> Scan
    requires { length text.now ≤ 255 }
    ensures { result ≡ scan_to a b unmoved text.now }
{
    let mut c = Scan {
        at: 0,
        nodes: 0,
        width: 0,
    };
    let mut k = 0;
    while k < text.len() {
        if b < c.nodes {
            return c;
        }
        c = count_byte(c, a, text[k]);
        k += 1;
    }
    c
}

/// The bytes of an accepted text that spell the nodes a to b: those before the end of node b that its nodes from a on have, if just these nodes are
/// read from them.
fn search(text: &[u8], a: usize, b: usize) -> Option<Ends>
    requires { length text.now ≤ 255 }
    ensures { LocatedRight text.now a b result }
{
    if b < a {
        return None;
    }
    let c = scan_to(text, a, b);
    let to = c.at;
    let width = c.width;
    if c.nodes <= b || to < width {
        return None;
    }
    let from = to - width;
    let Ok(tree) = read(&text[from..to]) else {
        return None;
    };
    if tree.node_count() != b - a + 2 {
        return None;
    }
    Some(Ends { from, to })
}

/// The bytes of a text that spell the nodes a to b, or the text's refusal, or that they are no stretch.
pub fn locate(text: &[u8], a: usize, b: usize) -> Result<Ends, Refusal>
    ensures { result ≡ result_of (located_in text.now a b).answer (ends_in (located_in text.now a b)) }
{
    read(text)?;
    search(text, a, b).ok_or(Ground::OutsideTree.at(Place::Nothing))
}
