// A list of rows written out as a file: its tests, then room for the text, then the text, line by line.
ghost use Rattle.std.specs.Prelude.{◌≡◌, ◌++◌, map, ◌+◌, ◌*◌, ◌≤◌, length, drop};
ghost use Rattle.laws.specs.Lists.{join};
ghost use Rattle.rules.specs.Files.{row_line, text};
ghost use Rattle.tables.specs.Views.{view};
ghost use Rattle.tables.specs.Lists.{list_rows};
ghost use Rattle.tables.specs.Writes.{made, written_list};

use crate::table::Table;
use crate::{frame, list, repeat};
use rules::refusal::Refusal;
use rules::room::room;

// The lines of a table's rows at the front of the lent part; nothing after them differs.
fn write_rows(out: &mut [u8], table: Table)
    requires { 11 * length (view table).rows ≤ length out.old }
    ensures { out.new ≡ join (map row_line (view table).rows) ++ drop (11 * length (view table).rows) out.old }
{
    let mut at: usize = 0;
    // Each line starts where the one before it ends.
    for row in &table.rows[..repeat::rows_of(table.n)] {
        frame::ROW.write(&mut out[at..], row.c, row.t);
        at += frame::ROW.bytes();
    }
}

// The text of a table at the front of the lent part; nothing after it differs.
fn write_table(out: &mut [u8], table: Table)
    requires { 7 + 11 * length (view table).rows ≤ length out.old }
    ensures { out.new ≡ text (view table) ++ drop (7 + 11 * length (view table).rows) out.old }
{
    let n = repeat::rows_of(table.n);
    frame::HEADER.write(out, table.m.0, n as u32);
    write_rows(&mut out[frame::HEADER.bytes()..], table);
}

// The text of a list of rows, from a place of the buffer on. No other byte differs, and on a refusal none at all. How many
// bytes were written is returned.
pub fn write_list(m: u32, list: &[[u32; 2]], out: &mut [u8], place: usize) -> Result<usize, Refusal>
    ensures { made result out.new ≡ written_list m (list_rows list.now) out.old place }
{
    let table = list::take_list(m, list)?;
    let size = frame::HEADER.bytes() + frame::ROW.bytes() * repeat::rows_of(table.n);
    room(out.len(), place, size)?;
    write_table(&mut out[place..], table);
    Ok(size)
}
