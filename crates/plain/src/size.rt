//! How much is to be written.
ghost use Rattle.std.specs.Prelude.{◌≡◌};
ghost use Rattle.table.specs.Rows.{present_rows};
ghost use Rattle.table.specs.Table.{rows_of, Laid};
ghost use Rattle.plain.specs.inner.Writing.{size_of};

use table::{Table, nodes_of};

/// How many seeds are to be written, and how many pairs.
#[derive(Clone, Copy)]
pub struct Size {
    pub seeds: usize,
    pub pairs: usize,
}

/// The size of the present seeds.
#[tactic(auto, using(crate::proofs::Turns::size_few))]
pub fn size_of(table: Table) -> Size
    requires { Laid table }
    ensures { result ≡ size_of (present_rows (rows_of table)) }
{
    let mut size = Size { seeds: 0, pairs: 0 };
    for i in 0..table.seeds {
        if table.present[i] {
            let part = nodes_of(&table.qs, &table.bounds, i);
            size.seeds += 1;
            size.pairs += part.len();
        }
    }
    size
}
