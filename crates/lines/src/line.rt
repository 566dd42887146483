//! The printed lines, put to an output.
ghost use Rattle.std.specs.Prelude.{◌++◌};
ghost use Rattle.answer.specs.Answer.{said};
ghost use Rattle.answer.specs.Refusal.{answer_in};
ghost use Rattle.write.specs.Decimal.{decimal};
ghost use Rattle.write.specs.Puts.{Room, Puts};
ghost use Rattle.lines.specs.Lines.{score_line, member, members, chain_line, result_lines, place_words, refusal_line};

use answer::{Place, Refusal};
use decimal::put_total;
use write::{put_decimal, put_word};

/// A word and a number behind it.
fn put_numbered(out: &mut [u8], at: usize, word: &[u8], n: u64) -> usize
    requires { Room (word.now ++ decimal n) at out.old }
    ensures { Puts (word.now ++ decimal n) at out.old out.new result }
{
    let next = put_word(out, at, word);
    put_decimal(out, next, n)
}

/// A place, if there is one.
fn put_place(out: &mut [u8], at: usize, place: Place) -> usize
    requires { Room (place_words place) at out.old }
    ensures { Puts (place_words place) at out.old out.new result }
{
    match place {
        Place::ByteInQ(byte) => put_numbered(out, at, b" Q ", byte as u64),
        Place::ByteInT(byte) => put_numbered(out, at, b" T ", byte as u64),
        Place::Seed(seed) => put_numbered(out, at, b" seed ", seed as u64),
        Place::Nothing => at,
    }
}

/// The line of a refusal; nothing if the call was accepted.
pub fn put_refusal(out: &mut [u8], answer: Result<(), Refusal>) -> usize
    requires { Room (refusal_line (said (answer_in answer))) 0 out.old }
    ensures { Puts (refusal_line (said (answer_in answer))) 0 out.old out.new result }
{
    match answer {
        Ok(()) => 0,
        Err(refusal) => {
            let behind_ground = put_numbered(out, 0, b"refused ", refusal.ground.number() as u64);
            let behind_place = put_place(out, behind_ground, refusal.place);
            put_word(out, behind_place, b"\n")
        }
    }
}

/// A number with one space before it, if the chain has it.
fn put_member(out: &mut [u8], at: usize, number: usize, has: bool) -> usize
    requires { Room (member number has) at out.old }
    ensures { Puts (member number has) at out.old out.new result }
{
    if has {
        put_numbered(out, at, b" ", number as u64)
    } else {
        at
    }
}

/// The numbers of the chain.
fn put_members(out: &mut [u8], at: usize, chain: [bool; 64]) -> usize
    requires { Room (members 1 chain) at out.old }
    ensures { Puts (members 1 chain) at out.old out.new result }
{
    let mut next = at;
    for (i, &has) in chain.iter().enumerate() {
        next = put_member(out, next, i + 1, has);
    }
    next
}

fn put_score_line(out: &mut [u8], at: usize, total: u64) -> usize
    requires { Room (score_line total) at out.old }
    ensures { Puts (score_line total) at out.old out.new result }
{
    let behind_word = put_word(out, at, b"score ");
    let behind_total = put_total(out, behind_word, total);
    put_word(out, behind_total, b"\n")
}

fn put_chain_line(out: &mut [u8], at: usize, chain: [bool; 64]) -> usize
    requires { Room (chain_line chain) at out.old }
    ensures { Puts (chain_line chain) at out.old out.new result }
{
    let behind_word = put_word(out, at, b"chain");
    let behind_members = put_members(out, behind_word, chain);
    put_word(out, behind_members, b"\n")
}

/// The two lines of a result.
pub fn put_result(out: &mut [u8], total: u64, chain: [bool; 64]) -> usize
    requires { Room (result_lines total chain) 0 out.old }
    ensures { Puts (result_lines total chain) 0 out.old out.new result }
{
    let behind_score = put_score_line(out, 0, total);
    put_chain_line(out, behind_score, chain)
}
