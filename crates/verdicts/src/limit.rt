// Whether a table is admitted: its shares sum to at most m times the fraction, in whole numbers scaled by H.
ghost use Rattle.std.specs.Prelude.{◌≡◌, map, ◌*◌, ◌≤◌, leb};
ghost use Rattle.laws.specs.Lists.{sum as total};
ghost use Rattle.rules.specs.Repeat.{repeat_length};
ghost use Rattle.rules.specs.Verdicts.{fraction, share as share_of, verdict};
ghost use Rattle.tables.specs.Views.{view_row};
ghost use Rattle.verdicts.specs.Limit.{Weighed};
ghost use Rattle.verdicts.specs.Rows.{table_of, Sharing};

use crate::rows::Rows;
use crate::share::{Fraction, times};
use rules::verdict::Verdict;
use tables::table::Row;

// A row's share of h slots: C × (h/T).
fn share(h: u32, row: Row) -> u64
    requires { 1 ≤ row.t }
    ensures { result ≡ share_of h (view_row row) }
{
    times(row.c, h / row.t)
}

// The sum of the shares of h slots.
pub fn scaled_sum(h: u32, rows: &[Row]) -> u64
    requires { Sharing h rows.now }
    ensures { result ≡ total (map (share_of h) (map view_row rows.now)) }
{
    rows.iter().map(|row| share(h, *row)).sum()
}

// Whether a sum of shares of h slots is within the limit.
pub fn is_admitted(m: u32, h: u32, sum: u64) -> bool
    requires { Weighed m h sum }
    ensures { result ≡ leb ((fraction m).den * sum) (m * (fraction m).num * h) }
{
    let f = Fraction::of(m);
    u64::from(f.den) * sum <= times(m, f.num) * u64::from(h)
}

// The verdict, from the repeat length h.
pub fn judge(table: &Rows<'_>, h: u32) -> Verdict
    requires { h ≡ repeat_length (map view_row table.now.rows.now) }
    ensures { result ≡ verdict (table_of table.now.m table.now.rows.now) }
{
    if is_admitted(table.m, h, scaled_sum(h, table.rows)) {
        Verdict::Admitted
    } else {
        Verdict::NotAdmitted
    }
}
