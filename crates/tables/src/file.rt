// A table file, read line by line: the header, the rows, the end, and then the tests of all rows together.
ghost use Rattle.std.specs.Prelude.{◌≡◌, ◌≤◌};
ghost use Rattle.rules.specs.Files.{read_rows, read_lines, read_file};
ghost use Rattle.tables.specs.Views.{table_answer};
ghost use Rattle.tables.specs.Rows.{rows_read};

use crate::header::Header;
use crate::table::{NO_ROWS, Row, Table};
use crate::{frame, header, repeat, row};
use rules::refusal::{Refusal, Refused};

// n rows from the front of a text, the first at line 2. One that cannot be read ends the reading there.
fn read_rows(s: &[u8], n: usize) -> Result<[Row; 64], Refused>
    requires { n ≤ 64 }
    ensures { result ≡ rows_read (read_rows 2 n s.now) }
{
    let mut rows = NO_ROWS;
    let mut at: usize = 0;
    // By index: it gives the row's place and its line. Each row begins where the one before it ends.
    for i in 0..n {
        let line = i as u32 + 2;
        let Some((c, t)) = frame::ROW.read(&s[at..]) else {
            return Err(Refusal::BadLine.at(line));
        };
        rows[i] = row::test_row(c, t, line)?;
        at += frame::ROW.bytes();
    }
    Ok(rows)
}

// The lines, up to the end of the text.
fn read_lines(s: &[u8]) -> Result<Table, Refused>
    ensures { result ≡ table_answer (read_lines s.now) }
{
    let Header { m, n } = header::read_header(s)?;
    let count = n.0 as usize;
    let start = frame::HEADER.bytes();
    let rows = read_rows(&s[start..], count)?;
    let end = start + frame::ROW.bytes() * count;
    if end < s.len() {
        return Err(Refusal::Trailing.at(n.0 + 2));
    }
    Ok(Table { m, n, rows })
}

// A whole file.
pub fn read_file(s: &[u8]) -> Result<Table, Refused>
    ensures { result ≡ table_answer (read_file s.now) }
{
    repeat::test_whole(read_lines(s)?)
}
