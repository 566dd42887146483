//! Two texts read, Q before T.
ghost use Rattle.std.specs.Prelude.{◌≡◌};
ghost use Rattle.answer.specs.Refusal.{result_of};
ghost use Rattle.answer.specs.Answer.{Refused};
ghost use Rattle.dealing.specs.Texts.{both_read, in_t, trees_of};

use answer::{Place, Refusal};
use tree::{RefusedText, Tree, read};

/// The trees of two texts.
#[derive(Clone, Copy)]
pub struct TwoTrees {
    pub q: Tree,
    pub t: Tree,
}

// Why a text was refused, if that text is T: a reading names its text Q.
fn in_t(refused: RefusedText) -> Refusal
    ensures { Refused result.ground result.place ≡ in_t (Refused refused.refusal.ground refused.refusal.place) }
{
    let refusal = refused.refusal;
    match refusal.place {
        Place::ByteInQ(byte) => refusal.ground.at(Place::ByteInT(byte)),
        _ => refusal,
    }
}

/// The trees of two texts, or the first refusal, of Q before T.
pub fn read_both(q: &[u8], t: &[u8]) -> Result<TwoTrees, Refusal>
    ensures { result ≡ result_of (both_read q.now t.now).answer (trees_of (both_read q.now t.now)) }
{
    let tree_q = read(q)?;
    let tree_t = read(t).map_err(in_t)?;
    Ok(TwoTrees {
        q: tree_q,
        t: tree_t,
    })
}
