// A table.
ghost use Rattle.std.specs.Prelude.{◌≡◌};
ghost use Rattle.tables.specs.Views.{no_table};

use rules::kinds::{Cores, Tasks};

// One row: execution C and period T.
#[derive(Clone, Copy)]
pub struct Row {
    pub c: u32,
    pub t: u32,
}

// m, n, and the rows of tasks 1 to n. The rows past them are 0.
// Places for 64 rows and n beside them, since nothing lies on a heap, and a caller's struct with other rows past n is an argument too.
#[derive(Clone, Copy)]
pub struct Table {
    pub m: Cores,
    pub n: Tasks,
    pub rows: [Row; 64],
}

// The table with no core and no task. Nothing here calls it: docs/STATEMENTS.md names it.
#[tactic(auto, unfolding(crate::specs::Views::no_table, crate::specs::Views::pack, crate::specs::Views::pack_rows))]
pub fn empty() -> Table
    ensures { result ≡ no_table }
{
    Table {
        m: Cores(0),
        n: Tasks(0),
        rows: NO_ROWS,
    }
}

// No row yet.
pub(crate) const NO_ROWS: [Row; 64] = [Row { c: 0, t: 0 }; 64];
