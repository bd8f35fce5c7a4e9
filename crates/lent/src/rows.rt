// A list of rows lent as a slice of row structs: `take_rows` copies the rows, one by one, into places of its own, and leaves all else to the
// functions over pairs. There is one place more than a table may have rows, so that a list that is too long is too long in its places too.
ghost use Rattle.std.specs.Prelude.{◌≡◌, map};
ghost use Rattle.rules.specs.Tables.{take_list};
ghost use Rattle.tables.specs.Views.{view_row, table_answer};

use rules::kinds::{Kind, Tasks};
use rules::refusal::Refused;
use tables::list;
use tables::table::{Row, Table};

// As many as a table may have rows, and one more.
const PLACES: usize = Tasks::MAX as usize + 1;

// The table of a list of rows: the rows in order, and then the tests of a list. Rows past the last place are not looked at.
pub fn take_rows(m: u32, rows: &[Row]) -> Result<Table, Refused>
    ensures { result ≡ table_answer (take_list m (map view_row rows.now)) }
{
    let n = rows.len().min(PLACES);
    let mut pairs = [[0; 2]; PLACES];
    // By index: the prover knows nothing of what `iter_mut` changed in a loop over two lists.
    for (i, row) in rows[..n].iter().enumerate() {
        pairs[i] = [row.c, row.t];
    }
    list::take_list(m, &pairs[..n])
}
