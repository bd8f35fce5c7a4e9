// The analysis of a table that is given as a struct. A struct that is no table is refused as a list of its rows would be: 2, 3, then
// 4 row by row, then 5. Rows past the last are not looked at.
ghost use Rattle.std.specs.Prelude.{◌≡◌, map};
ghost use Rattle.laws.specs.Lists.{join};
ghost use Rattle.rules.specs.Refusals.{first, settle};
ghost use Rattle.rules.specs.Tables.{row_tests};
ghost use Rattle.rules.specs.Verdicts.{order as order_of};
ghost use Rattle.tables.specs.Views.{view};
ghost use Rattle.verdicts.specs.Structs.{outcome_of, struct_tests, repeat_of, test_answer, judgement_of, verdict_answer, number_of, pack_ranks, priority_answer, Sound, Known};

use crate::limit::judge;
use crate::order::order;
use crate::rows::Rows;
use crate::share::count_heavy;
use rules::kinds::{Repeat, TaskNumber};
use rules::refusal::{Refusal, Refused};
use rules::verdict::Verdict;
use tables::table::Table;

// What frame `11` says.
#[derive(Clone, Copy)]
pub struct Judgement {
    pub verdict: Verdict,
    pub heavy: u32,
    pub repeat: Repeat,
}

// The tests of the rows that count: the first that is refused ends them.
fn test_rows(t: Table) -> Result<(), Refused>
    ensures { result ≡ outcome_of (first (join (map row_tests (view t).rows))) }
{
    for row in &t.rows[..tables::repeat::rows_of(t.n)] {
        tables::row::test_row(row.c, row.t, 0)?;
    }
    Ok(())
}

// All tests of a table: of m and n, of the rows, of H, which is returned where none is failed. No line of a file is meant.
pub fn test_table(t: Table) -> Result<Repeat, Refused>
    ensures { result ≡ test_answer (settle (struct_tests t) (repeat_of (view t))) }
{
    tables::header::test_header(t.m.0, t.n.0 as usize, 0)?;
    test_rows(t)?;
    tables::repeat::repeat_length(t).ok_or(Refusal::BadRepeat.at(0))
}

// What frame `11` says of a table that passes all tests, from its repeat length.
fn judged(table: Table, h: Repeat) -> Judgement
    requires { Known table h }
    ensures { result ≡ judgement_of (view table) }
{
    let lent = Rows {
        m: table.m.0,
        rows: &table.rows[..table.n.0 as usize],
    };
    Judgement {
        verdict: judge(&lent, h.0),
        heavy: count_heavy(&lent),
        repeat: h,
    }
}

// The numbers alone, as frames and slots use them. The loop becomes a copy; the array's `map` takes a turn through an iterator for each place.
pub fn plain(tasks: [TaskNumber; 64]) -> [u8; 64]
    ensures { result ≡ map (λ i. i.0) tasks }
{
    let mut ranks = [0u8; 64];
    for i in 0..64 {
        ranks[i] = tasks[i].0;
    }
    ranks
}

// Each number in the type of task numbers. By a loop, as in `plain`: by `map` it took half of the time of all tests of a state with few tasks.
fn numbered(ranks: [u8; 64]) -> [TaskNumber; 64]
    ensures { result ≡ map number_of ranks }
{
    let mut tasks = [TaskNumber(0); 64];
    for i in 0..64 {
        tasks[i] = TaskNumber(ranks[i]);
    }
    tasks
}

// The order of a table that passes all tests, and zeros past it.
fn ranked(table: Table) -> [TaskNumber; 64]
    requires { Sound table }
    ensures { result ≡ pack_ranks (order_of (view table)) }
{
    let n = table.n.0 as usize;
    let mut ranks = [0u8; 64];
    let lent = Rows {
        m: table.m.0,
        rows: &table.rows[..n],
    };
    order(&lent, &mut ranks[..n]);
    numbered(ranks)
}

// The verdict, the number of heavy tasks and the repeat length of a table.
pub fn verdict(table: Table) -> Result<Judgement, Refused>
    ensures { result ≡ verdict_answer (settle (struct_tests table) (judgement_of (view table))) }
{
    let h = test_table(table)?;
    Ok(judged(table, h))
}

// The priority order of a table: the task numbers, highest priority first, and zeros past the last.
pub fn priority(table: Table) -> Result<[TaskNumber; 64], Refused>
    ensures { result ≡ priority_answer (settle (struct_tests table) (order_of (view table))) }
{
    test_table(table)?;
    Ok(ranked(table))
}
