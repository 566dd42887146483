//! A table with one seed more, for which there is room.
ghost use Rattle.std.specs.Prelude.{◌≡◌};
ghost use Rattle.adding.specs.inner.Appending.{with_seed, SeedRoom};

use table::Table;

/// The table with a present seed of these q and t and this score behind the last.
pub fn appended(table: Table, qs: &[u8], ts: &[u8], score: i32) -> Table
    requires { SeedRoom table qs.now ts.now }
    ensures { result ≡ with_seed table qs.now ts.now score }
{
    let at = table.pairs;
    let seeds = table.seeds;
    let end = at + qs.len();
    let mut next = table;
    next.qs[at..end].copy_from_slice(qs);
    next.ts[at..end].copy_from_slice(ts);
    next.bounds[seeds + 1] = end as u16;
    next.scores[seeds] = score;
    next.present[seeds] = true;
    next.pairs = end;
    next.seeds = seeds + 1;
    next
}
