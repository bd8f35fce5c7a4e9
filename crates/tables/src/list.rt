// A list of rows, each a pair of C and T: tested, and taken as a table.
ghost use Rattle.std.specs.Prelude.{◌≡◌, ◌≤◌, length};
ghost use Rattle.rules.specs.Tables.{take_list};
ghost use Rattle.tables.specs.Views.{table_answer};
ghost use Rattle.tables.specs.Rows.{rows_answer};
ghost use Rattle.tables.specs.Lists.{list_rows, test_rows};

use crate::header::Header;
use crate::table::{NO_ROWS, Row, Table};
use crate::{header, repeat, row};
use rules::refusal::Refused;

// The tests of each row, in their order. One that is refused ends them there.
fn test_rows(list: &[[u32; 2]]) -> Result<[Row; 64], Refused>
    requires { length list.now ≤ 64 }
    ensures { result ≡ rows_answer (test_rows (list_rows list.now)) }
{
    let mut rows = NO_ROWS;
    // By index: the prover knows nothing of what `iter_mut` changed in a loop over two lists.
    for (i, &[c, t]) in list.iter().enumerate() {
        rows[i] = row::test_row(c, t, 0)?;
    }
    Ok(rows)
}

// The table of a list of rows.
pub fn take_list(m: u32, list: &[[u32; 2]]) -> Result<Table, Refused>
    ensures { result ≡ table_answer (take_list m (list_rows list.now)) }
{
    let Header { m, n } = header::test_header(m, list.len(), 0)?;
    let rows = test_rows(list)?;
    repeat::test_whole(Table { m, n, rows })
}
