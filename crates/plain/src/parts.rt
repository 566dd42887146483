//! The two parts of a deck behind its counts: the seed records, and the pair records.
ghost use Rattle.std.specs.Prelude.{◌≡◌, ◌+◌, ◌*◌, ◌≤◌, length};
ghost use Rattle.std.proofs.lemmas.List.Edits.{sets};
ghost use Rattle.table.specs.Rows.{present_rows};
ghost use Rattle.table.specs.Table.{rows_of, Laid};
ghost use Rattle.deck.specs.Deck.{chains_of};
ghost use Rattle.plain.specs.Plain.{plain_pairs};
ghost use Rattle.plain.specs.inner.Writing.{size_of, seed_part, pair_part};

use super::records::{put_chain, put_seed};
use table::{Table, nodes_of};

/// The seed records of the present seeds, from the fifth byte on.
pub fn put_seeds(out: &mut [u8], table: Table)
    requires laid { Laid table }
    requires room { 4 + 6 * (size_of (present_rows (rows_of table))).seeds ≤ length out.old }
    ensures { out.new ≡ sets out.old 4 (seed_part (present_rows (rows_of table))) }
{
    let mut at = 4;
    let mut k = 1;
    for i in 0..table.seeds {
        if table.present[i] {
            put_seed(out, at, table.scores[i], k);
            let part = nodes_of(&table.qs, &table.bounds, i);
            at += 6;
            k += part.len();
        }
    }
}

/// The pair records of the present seeds.
pub fn put_pairs(out: &mut [u8], start: usize, table: Table)
    requires laid { Laid table }
    requires room { start + 4 * (size_of (present_rows (rows_of table))).pairs ≤ length out.old }
    ensures { out.new ≡ sets out.old start (pair_part (plain_pairs 1 (chains_of (present_rows (rows_of table))))) }
{
    let mut at = start;
    let mut k = 1;
    for i in 0..table.seeds {
        if table.present[i] {
            let qs = nodes_of(&table.qs, &table.bounds, i);
            let ts = nodes_of(&table.ts, &table.bounds, i);
            let n = put_chain(out, at, k, qs, ts);
            at += 4 * n;
            k += n;
        }
    }
}
