// The repeat length H: the least common multiple of all periods, up to its bound.
ghost use Rattle.std.specs.Prelude.{◌≡◌, min};
ghost use Rattle.rules.specs.Kinds.{repeat_of};
ghost use Rattle.rules.specs.Refusals.{settle};
ghost use Rattle.rules.specs.Repeat.{lcm as lcm_of, repeat_length};
ghost use Rattle.rules.specs.Tables.{whole_tests};
ghost use Rattle.tables.specs.Repeats.{Gcd, Reached};
ghost use Rattle.tables.specs.Views.{view, table_answer, Formed};

use crate::table::Table;
use rules::kinds::{Kind, Repeat, Tasks};
use rules::refusal::{Refusal, Refused};

// The greatest common divisor, by Euclid.
fn gcd(a: u32, b: u32) -> u32
    ensures { Gcd a b result }
{
    let mut x: u32 = a;
    let mut y: u32 = b;
    // No `for` fits: how many turns there are shows on the way.
    while 0 < y {
        let r = x % y;
        x = y;
        y = r;
    }
    x
}

// The least common multiple of h and a period, if it is within the bound of H. (A period of 0, which no row that was tested
// has, leaves h as it is, as the definition does.)
fn lcm(h: Repeat, t: u32) -> Option<Repeat>
    requires { Reached h }
    ensures { result ≡ repeat_of (lcm_of h.0 t) }
{
    if t == 0 {
        return Some(h);
    }
    let g = gcd(h.0, t);
    let m = u64::from(h.0) * u64::from(t / g);
    if u64::from(Repeat::MAX) < m {
        return None;
    }
    Repeat::new(m as u32)
}

// How many of the 64 rows count.
pub fn rows_of(n: Tasks) -> usize
    ensures { result ≡ min n.0 64 }
{
    n.0.min(Tasks::MAX) as usize
}

// H, unless it is above its bound. The first value on the way that is above it ends the work: it divides H.
pub fn repeat_length(table: Table) -> Option<Repeat>
    ensures { result ≡ repeat_of (repeat_length (view table).rows) }
{
    let mut h = Repeat(1);
    for row in &table.rows[..rows_of(table.n)] {
        h = lcm(h, row.t)?;
    }
    Some(h)
}

// The tests of all rows together, which have no line.
pub(crate) fn test_whole(table: Table) -> Result<Table, Refused>
    requires { Formed table }
    ensures { result ≡ table_answer (settle (whole_tests (view table).rows) (view table)) }
{
    match repeat_length(table) {
        Some(_) => Ok(table),
        None => Err(Refusal::BadRepeat.at(0)),
    }
}
