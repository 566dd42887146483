//! A lent slice of pairs as two lists of nodes, which the add by value takes.
ghost use Rattle.std.specs.Prelude.{◌≡◌, ◌+◌, length, IfOk};
ghost use Rattle.answer.specs.Refusal.{answer_in};
ghost use Rattle.chain.specs.Acts.{add};
ghost use Rattle.chain.specs.View.{view, Sound, Does};
ghost use Rattle.lent.specs.inner.Listing.{no_nodes, with_one_more, with_pairs, held_in, NodesFit};

use chain::{Added, Session};
use seed::Pair;

/// The q and the t of `count` pairs: of 1,025 at most, which is one more than a session ever takes.
// Two lists and not one of pairs: the add by value takes them so.
#[derive(Clone, Copy)]
pub struct NodeLists {
    pub count: usize,
    pub qs: [u8; 1025],
    pub ts: [u8; 1025],
}

impl NodeLists {
    #[tactic(auto, unfolding(crate::specs::inner::Listing::no_nodes))]
    fn new() -> NodeLists
        ensures { result ≡ no_nodes }
    {
        NodeLists {
            count: 0,
            qs: [0; 1025],
            ts: [0; 1025],
        }
    }

    // One pair more, where there is room.
    #[tactic(auto, unfolding(crate::specs::inner::Listing::with_one_more))]
    fn push(&mut self, pair: Pair)
        ensures { self.new ≡ with_one_more self.old pair.q pair.t }
    {
        let Pair { q, t } = pair;
        if self.count < 1025 {
            self.qs[self.count] = q;
            self.ts[self.count] = t;
            self.count += 1;
        }
    }
}

/// The nodes of the pairs of a lent slice, from the first on, as many as there is room for.
pub fn listed(pairs: &[Pair]) -> NodeLists
    ensures { result ≡ with_pairs pairs.now no_nodes }
{
    let mut nodes = NodeLists::new();
    for &pair in pairs {
        nodes.push(pair);
    }
    nodes
}

/// Adds the seed of the pairs that were listed.
pub fn add_listed(session: Session, nodes: &NodeLists, score: i32) -> Added
    requires { NodesFit nodes.now }
    ensures does { Does session (add (held_in nodes.now) score) (answer_in result.answer) result.session }
    ensures number { IfOk result.answer (λ number. number ≡ length (view session).rows + 1) }
{
    session.added(&nodes.qs[..nodes.count], &nodes.ts[..nodes.count], score)
}
