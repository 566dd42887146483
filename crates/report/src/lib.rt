//! Standard input's bytes to the printed lines.
#![tactic(auto)]

mod input;

ghost use Rattle.std.specs.Prelude.{◌≡◌, ◌≤◌, take};
ghost use Rattle.write.specs.Puts.{Puts};
ghost use Rattle.chain.specs.Opening.{Opens, opening_answer, opened};
ghost use Rattle.chain.specs.View.{view, Sound};
ghost use Rattle.lines.specs.Lines.{lines_room};
ghost use Rattle.report.specs.Report.{outcome_of, Reports, ReportPut};
ghost use Rattle.report.specs.inner.Steps.{ChainPrinted};

use answer::{Ground, Place, Refusal};
use best::scratch_short;
use chain::{RefusedOpening, Session, open_deck};
use input::{cut, read_bytes};
use lines::{Lines, ROOM, refusal, result};
use write::put_word;

/// The session on an input's Q, T and deck.
fn opened_on(input: &[u8]) -> Result<Session, RefusedOpening>
    ensures { Opens (outcome_of input.now) (opening_answer result) (opened result) }
{
    let (q, rest) = cut(read_bytes(input));
    let (t, deck) = cut(rest);
    open_deck(q, t, deck)
}

/// The lines of a session's best chain, worked out on the scratch.
fn chain_lines(session: Session, scratch: &mut [u64]) -> Result<Lines, Refusal>
    ensures { ChainPrinted (view session) scratch.old scratch.new result }
{
    let best = session.best_chain(scratch)?;
    Ok(result(best.total, best.chain))
}

/// The printed lines of an input: those of its best chain, or of its refusal.
pub fn report(input: &[u8], scratch: &mut [u64]) -> Result<Lines, Refusal>
    ensures { Reports input.now scratch.old scratch.new result }
{
    if scratch_short(scratch.len()) {
        return Err(Ground::ScratchShort.at(Place::Nothing));
    }
    match opened_on(input) {
        Ok(session) => chain_lines(session, scratch),
        Err(opening) => Ok(refusal(Err(opening.refusal))),
    }
}

/// Puts lines to the start of an output, and answers the place behind them.
fn put_lines(out: &mut [u8], lines: Lines) -> usize
    requires { lines.length ≤ lines_room }
    ensures { Puts (take lines.length lines.bytes) 0 out.old out.new result }
{
    put_word(out, 0, &lines.bytes[..lines.length])
}

/// The same for C and Rust, put to an output that holds every report: how many bytes were written, and 0 if the lent memory is too short.
pub fn gurandyo_report(input: &[u8], scratch: &mut [u64], out: &mut [u8]) -> usize
    ensures { ReportPut input.now scratch.old scratch.new out.old out.new result }
{
    if out.len() < ROOM {
        return 0;
    }
    match report(input, scratch) {
        Ok(lines) => put_lines(out, lines),
        Err(_) => 0,
    }
}
