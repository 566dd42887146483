//! The printed lines of a result and of a refusal.
#![tactic(auto)]

mod line;

ghost use Rattle.std.specs.Prelude.{◌≡◌};
ghost use Rattle.answer.specs.Answer.{said};
ghost use Rattle.answer.specs.Refusal.{answer_in};
ghost use Rattle.lines.specs.Lines.{result_lines, refusal_line, printed};

use answer::Refusal;
use line::{put_refusal, put_result};

/// How many bytes hold every report.
pub const ROOM: usize = 256;

/// Lines, and how many bytes they have: what stands behind them is zero.
#[derive(Clone, Copy)]
pub struct Lines {
    pub bytes: [u8; ROOM],
    pub length: usize,
}

/// The two lines of a result.
pub fn result(total: u64, chain: [bool; 64]) -> Lines
    ensures { result ≡ printed (result_lines total chain) }
{
    let mut bytes = [0u8; ROOM];
    let length = put_result(&mut bytes[..], total, chain);
    Lines { bytes, length }
}

/// The line of a refusal; none if the call was accepted.
pub fn refusal(answer: Result<(), Refusal>) -> Lines
    ensures { result ≡ printed (refusal_line (said (answer_in answer))) }
{
    let mut bytes = [0u8; ROOM];
    let length = put_refusal(&mut bytes[..], answer);
    Lines { bytes, length }
}
