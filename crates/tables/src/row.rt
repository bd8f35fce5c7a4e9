// The tests of one row, the same in a file and in a list.
ghost use Rattle.std.specs.Prelude.{◌≡◌};
ghost use Rattle.tables.specs.Rows.{row_answer, test_row};

use crate::table::Row;
use rules::kinds::{Kind, Period};
use rules::refusal::{Refusal, Refused};

// The tests of a row: C = 0, C > T, or T above its bound.
#[tactic(auto, unfolding(crate::specs::Rows::test_row, rules::specs::Tables::row_tests))]
pub fn test_row(c: u32, t: u32, line: u32) -> Result<Row, Refused>
    ensures { result ≡ row_answer (test_row c t line) }
{
    if c == 0 || t < c || Period::MAX < t {
        Err(Refusal::BadRow.at(line))
    } else {
        Ok(Row { c, t })
    }
}
