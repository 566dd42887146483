//! The deck of present seeds, written in plain form.
#![tactic(auto)]

mod parts;
mod records;
mod size;

ghost use Rattle.table.specs.Rows.{present_rows};
ghost use Rattle.table.specs.Table.{rows_of, Laid};
ghost use Rattle.plain.specs.Plain.{WritesPlain};

use answer::{Ground, Place, Refusal};
use parts::{put_pairs, put_seeds};
use records::put_counts;
use size::size_of;
use table::Table;

/// Writes the present seeds in plain form, and answers how many bytes that is.
pub fn write(table: Table, out: &mut [u8]) -> Result<usize, Refusal>
    requires { Laid table }
    ensures { WritesPlain (present_rows (rows_of table)) out.old out.new result }
{
    let size = size_of(table);
    let start = 4 + 6 * size.seeds;
    let length = start + 4 * size.pairs;
    if out.len() < length {
        return Err(Ground::OutputShort.at(Place::Nothing));
    }
    put_counts(out, size);
    put_seeds(out, table);
    put_pairs(out, start, table);
    Ok(length)
}
