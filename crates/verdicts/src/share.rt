// Which tasks are heavy: those whose share C/T is above the fraction m/(3m-2).
ghost use Rattle.std.specs.Prelude.{◌≡◌, ◌*◌};
ghost use Rattle.rules.specs.Verdicts.{fraction, heavy_at, heavy_count};
ghost use Rattle.reading_laws.specs.Bounds.{Within};
ghost use Rattle.rules.specs.Limits.{cores_min, cores_max};
ghost use Rattle.tables.specs.Views.{view_row};
ghost use Rattle.verdicts.specs.Fractions.{pack_fraction, view_fraction};
ghost use Rattle.verdicts.specs.Rows.{table_of};

use crate::rows::Rows;
use tables::table::Row;

// The share from which on a task is heavy, as a numerator and a denominator.
#[derive(Clone, Copy)]
pub struct Fraction {
    pub num: u32,
    pub den: u32,
}

impl Fraction {
    // m/(3m-2).
    #[tactic(auto, unfolding(rules::specs::Verdicts::fraction))]
    pub fn of(m: u32) -> Fraction
        requires { Within cores_min cores_max m }
        ensures { result ≡ pack_fraction (fraction m) }
    {
        Fraction {
            num: m,
            den: 3 * m - 2,
        }
    }
}

// The whole product.
pub fn times(a: u32, b: u32) -> u64
    ensures { result ≡ a * b }
{
    u64::from(a) * u64::from(b)
}

// Whether C/T is above the fraction.
pub fn is_heavy(f: Fraction, row: Row) -> bool
    ensures { result ≡ heavy_at (view_fraction f) (view_row row) }
{
    times(row.t, f.num) < times(row.c, f.den)
}

// How many tasks are heavy.
pub fn count_heavy(table: &Rows<'_>) -> u32
    ensures { result ≡ heavy_count (table_of table.now.m table.now.rows.now) }
{
    let f = Fraction::of(table.m);
    table.rows.iter().filter(|row| is_heavy(f, **row)).count() as u32
}
