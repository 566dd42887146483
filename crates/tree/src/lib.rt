//! A text read into a tree.
#![tactic(auto)]

mod compare;
mod dot_bracket;
mod kinds;
mod node_kinds;
mod run;
mod unknown;

ghost use Rattle.std.specs.Prelude.{◌≡◌, ◌≤◌, length, Err};
ghost use Rattle.tree.specs.Reading.{Reading, bad_length, blind_reading, with_kinds, reading, read_of, tree_of, single, leaves_of, kinds_below, node_kinds_of, IsTree};
ghost use Rattle.tree.specs.inner.Building.{Known};

use answer::{Ground, Place, Refusal};
use character::Role;
use dot_bracket::{dot_bracket, form_role, in_dot_bracket};
use kinds::first_other_kind;
use node_kinds::node_kinds;
use run::read_run;
use std::marker::Model;
use unknown::first_refused;

/// The nodes of a structure, numbered from 0 in postfix order: how many, the leftmost leaf of each, and the kind of each below the added root, 0 an
/// unpaired base and 1 a base pair. The added root is the last.
#[derive(Clone, Copy)]
pub struct Tree {
    n: usize,
    left: [u8; 256],
    kinds: [u8; 256],
}

impl Model for Tree {
    ghost use Rattle.tree.specs.Fields.{Fields};

    ghost Value = { Fields };

    ghost use Rattle.tree.specs.Whole.{fields_of, inside_of, WasRead};

    ghost view = { fields_of };

    ghost invariant = { WasRead };

    ghost inverse = { inside_of };
}

impl Tree {
    /// How many nodes there are, the added root among them.
    pub fn node_count(&self) -> usize
        ensures count { result ≡ self.now.n }
        ensures read { IsTree self.now }
    {
        self.n
    }

    /// The leftmost leaf of each node, by its number.
    pub fn leaves(&self) -> &[u8]
        ensures leaves { result.now ≡ leaves_of self.now }
        ensures read { IsTree self.now }
    {
        &self.left[..self.n]
    }

    /// The kind of each node below the added root, by its number: 0 an unpaired base and 1 a base pair.
    pub fn kinds(&self) -> &[u8]
        ensures { result.now ≡ kinds_below self.now }
    {
        &self.kinds[..self.n - 1]
    }
}

/// Why a text was refused, and the tree of ".", which is handed over beside the refusal.
#[derive(Clone, Copy)]
pub struct RefusedText {
    pub refusal: Refusal,
    pub tree: Tree,
}

impl From<RefusedText> for Refusal {
    ghost from_gives = { λ refused refusal. refusal ≡ refused.refusal };

    fn from(refused: RefusedText) -> Refusal {
        refused.refusal
    }
}

#[tactic(auto, unfolding(crate::specs::Reading::bad_length))]
fn bad_length(len: usize) -> bool
    ensures { result ≡ bad_length len }
{
    255 < len
}

/// The tree of ".", which stands beside a refusal.
#[tactic(auto, using(crate::proofs::Trees::single_read))]
pub fn single_tree() -> Tree
    ensures { result ≡ tree_of single }
{
    Tree {
        n: 2,
        left: [0u8; 256],
        kinds: [0u8; 256],
    }
}

/// The kinds of all nodes of a tree, with 2 for the added root.
pub fn kinds_with_root(tree: Tree) -> [u8; 256]
    ensures { result ≡ node_kinds_of tree }
{
    let mut kinds = tree.kinds;
    kinds[tree.n - 1] = 2;
    kinds
}

fn refused(ground: Ground, byte: usize) -> RefusedText
    ensures { Err result ≡ read_of (Reading.text_refused ground byte) }
{
    RefusedText {
        refusal: ground.at(Place::ByteInQ(byte)),
        tree: single_tree(),
    }
}

/// The tree of a text in dot-bracket form without a refused byte, or grounds 3 and 4.
fn read_known(text: &[u8]) -> Result<Tree, RefusedText>
    requires { Known text.now }
    ensures { result ≡ read_of (blind_reading text.now) }
{
    let mut left = [0u8; 256];
    let end = read_run(text, 0, 0, &mut left[..]);
    let at = end.at;
    if at == text.len() {
        return Ok(Tree {
            n: end.n + 1,
            left,
            kinds: node_kinds(text),
        });
    }
    match form_role(text[at]) {
        Role::Closing => Err(refused(Ground::ClosesNothing, at)),
        _ => Err(refused(Ground::NeverClosed, at)),
    }
}

/// The same of any text, or grounds 2, 3 and 4 and then 24: it is read in dot-bracket form, which has its roles and not its kinds.
fn read_written(text: &[u8]) -> Result<Tree, RefusedText>
    requires { length text.now ≤ 255 }
    ensures { result ≡ read_of (with_kinds text.now (blind_reading text.now)) }
{
    let form = dot_bracket(text);
    let written = &form[..text.len()];
    if !in_dot_bracket(written) {
        return Err(refused(Ground::UnknownByte, first_refused(text)));
    }
    let tree = read_known(written)?;
    let other = first_other_kind(text, written);
    if other < text.len() {
        return Err(refused(Ground::ClosesOtherKind, other));
    }
    Ok(tree)
}

/// The tree of a text, or the first refusal with its byte and the tree of ".". A text in dot-bracket form needs no copy, and has brackets of one kind.
pub fn read(text: &[u8]) -> Result<Tree, RefusedText>
    ensures { result ≡ read_of (reading text.now) }
{
    if bad_length(text.len()) {
        return Err(refused(Ground::TextLength, 0));
    }
    if in_dot_bracket(text) {
        return read_known(text);
    }
    read_written(text)
}
