//! The kinds of the nodes of a text in dot-bracket form: 0 an unpaired base, 1 a base pair.
ghost use Rattle.std.specs.Prelude.{◌≡◌};
ghost use Rattle.character.specs.Character.{role_of};
ghost use Rattle.tree.specs.inner.DotBracket.{SameRole};
ghost use Rattle.tree.specs.inner.NodeKinds.{told_by, ended_by, kinds_read, ShortForm};

/// The kind that a byte tells of the node that it ends. An opening byte ends none and tells 0.
fn told(byte: u8) -> u8
    requires { SameRole byte }
    ensures { result ≡ told_by (role_of byte) }
{
    if byte == b')' { 1 } else { 0 }
}

/// How many nodes a byte ends.
fn ended(byte: u8) -> usize
    requires { SameRole byte }
    ensures { result ≡ ended_by (role_of byte) }
{
    if byte == b'(' { 0 } else { 1 }
}

/// The kinds of the nodes below the added root: the k-th byte that ends a node tells that of node k. An opening byte writes the 0 that stands there, so
/// that no byte needs a jump.
pub fn node_kinds(text: &[u8]) -> [u8; 256]
    requires { ShortForm text.now }
    ensures { result ≡ kinds_read text.now }
{
    let mut kinds = [0u8; 256];
    let mut node = 0;
    for &byte in text {
        kinds[node] = told(byte);
        node += ended(byte);
    }
    kinds
}
