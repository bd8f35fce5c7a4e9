// A table as it is lent: m, and its rows, one a task in table order. Both are within their bounds.
ghost use Rattle.reading_laws.specs.Bounds.{TableInBounds};
ghost use Rattle.verdicts.specs.Rows.{table_of, bounds-prop};

use tables::table::Row;

#[derive(Clone, Copy)]
pub struct Rows<'a> {
    pub m: u32,
    pub rows: &'a [Row],
    pub ghost bounds: { TableInBounds (table_of m rows.now) } by { bounds-prop (table_of m rows.now) },
}
