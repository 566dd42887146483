//! What a new seed is refused for by plain numbers.
ghost use Rattle.std.specs.Prelude.{◌≡◌, ◌≤◌};
ghost use Rattle.answer.specs.Refusal.{result_of};
ghost use Rattle.adding.specs.Adding.{limit_answer};

use answer::{Ground, Place, Refusal};
use table::in_range;

/// Judges a seed with so many pairs, for a table of so many seeds and pairs.
pub fn judge_limits(seeds: usize, pairs: usize, count: usize, score: i32) -> Result<(), Refusal>
    requires seeds_few { seeds ≤ 64 }
    requires pairs_few { pairs ≤ 1024 }
    ensures { result ≡ result_of (limit_answer seeds pairs count score) tt }
{
    let number = Place::Seed(seeds + 1);
    if !in_range(score) {
        return Err(Ground::ScoreRange.at(number));
    }
    if count == 0 {
        return Err(Ground::NoPairs.at(number));
    }
    if 64 <= seeds {
        return Err(Ground::SeedLimit.at(number));
    }
    if 1024 - pairs < count {
        return Err(Ground::PairLimit.at(number));
    }
    Ok(())
}
