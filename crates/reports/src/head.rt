// Frames `11` and `12` of an accepted table. What is asked is of the table and of the buffer at once, so that it is no type of either.
ghost use Rattle.std.specs.Prelude.{◌≡◌, ◌++◌, ◌+◌, ◌*◌, drop};
ghost use Rattle.rules.specs.Runs.{verdict_line, order_line};
ghost use Rattle.rules.specs.Tables.{size};
ghost use Rattle.rules.specs.Verdicts.{order};
ghost use Rattle.tables.specs.Views.{view};
ghost use Rattle.reports.specs.Heads.{Room, head, head_length};

use tables::table::Table;

// How many bytes the two frames take.
pub fn head_length(t: Table) -> usize
    ensures { result ≡ head_length (view t) }
{
    18 + 2 * tables::repeat::rows_of(t.n)
}

// Frame `11` at the front of the lent part; nothing after it differs.
fn write_judgement(out: &mut [u8], t: Table)
    requires { Room t 15 out.old }
    ensures { out.new ≡ verdict_line (view t) ++ drop 15 out.old }
{
    let j = verdicts::table::verdict(t).unwrap();
    verdicts::lines::write_verdict(out, j.verdict, j.heavy, j.repeat.0);
}

// Frame `12` at the front of the lent part; nothing after it differs.
fn write_ranks(out: &mut [u8], t: Table)
    requires { Room t (2 * size (view t) + 3) out.old }
    ensures { out.new ≡ order_line (order (view t)) ++ drop (2 * size (view t) + 3) out.old }
{
    let ranks = verdicts::table::plain(verdicts::table::priority(t).unwrap());
    let n = tables::repeat::rows_of(t.n);
    verdicts::lines::write_order(out, &ranks[..n]);
}

// Both, one right after the other; nothing after them differs.
pub fn write_head(out: &mut [u8], t: Table)
    requires { Room t (head_length (view t)) out.old }
    ensures { out.new ≡ head (view t) ++ drop (head_length (view t)) out.old }
{
    write_judgement(out, t);
    write_ranks(&mut out[15..], t);
}
