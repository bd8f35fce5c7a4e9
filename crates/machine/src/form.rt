// Whether a state that a caller hands back is well formed. Nothing is summed before it is known to be small.
ghost use Rattle.std.specs.Prelude.{◌≡◌, ◌&&◌, ◌+◌, ◌*◌, ◌<◌, eqb, leb};
ghost use Rattle.laws.specs.Lists.{all, numbers};
ghost use Rattle.rules.specs.Limits.{tasks_max};
ghost use Rattle.rules.specs.Rows as Rules;
ghost use Rattle.rules.specs.Forms.{task_formed};
ghost use Rattle.tables.specs.Views as Tables;
ghost use Rattle.machine.specs.Views.{view, tasks, blank, padded, formed};
ghost use Rattle.machine.specs.Forms.{Timed, Ready};

use crate::state::State;
use rules::kinds::{Kind, Slot, Tasks};
use tables::table::Row;
use verdicts::share::times;
use verdicts::table::priority;

// ---- what stands past the last task

#[tactic(auto, unfolding(crate::specs::Views::blank))]
fn is_blank(s: &State, k: usize) -> bool
    requires { k < tasks_max }
    ensures { result ≡ blank s.now k }
{
    let row = s.table.rows[k];
    row.c == 0
        && row.t == 0
        && s.ranks[k].0 == 0
        && s.left[k].0 == 0
        && s.last[k].0 == 0
        && s.done[k].0 == 0
        && s.dropped[k].0 == 0
}

// There are places for all tasks, and what stands past the last task is 0.
fn is_padded(s: &State) -> bool
    ensures { result ≡ padded s.now }
{
    let n = s.table.n.0;
    n <= Tasks::MAX && (n as usize..64).all(|k| is_blank(s, k))
}

// ---- the tasks

// The units that were released before a boundary.
fn released(row: Row, clock: u32) -> u64
    requires { Timed row.c row.t clock }
    ensures { result ≡ Rules.released (Tables.view_row row) clock }
{
    u64::from(row.c) * u64::from(clock).div_ceil(u64::from(row.t))
}

// done + left + dropped is what was released.
fn books_hold(released: u64, done: u64, left: u64, dropped: u64) -> bool
    ensures { result ≡ eqb (done + left + dropped) released }
{
    done <= released && dropped <= released - done && left == released - done - dropped
}

fn task_fits(s: &State, i: usize) -> bool
    requires ready { Ready s.now }
    requires place { i < tasks s.now }
    ensures { result ≡ task_formed (view s.now) (i + 1) }
{
    let row = s.table.rows[i];
    let clock = s.clock.0;
    let left = s.left[i].0;
    left <= u64::from(row.c)
        && (clock % row.t != 0 || left == 0)
        && u32::from(s.last[i].0) <= s.table.m.0
        && books_hold(released(row, clock), s.done[i].0, left, s.dropped[i].0)
}

fn tasks_fit(s: &State) -> bool
    requires { Ready s.now }
    ensures { result ≡ all (task_formed (view s.now)) (numbers (tasks s.now)) }
{
    (0..s.table.n.0 as usize).all(|i| task_fits(s, i))
}

// ---- the whole

// Total moves are at most m times the clock, misses at most 64 times it.
fn totals_fit(m: u32, clock: u32, moves: u64, misses: u64) -> bool
    ensures { result ≡ (leb moves (m * clock) && leb misses (tasks_max * clock)) }
{
    moves <= times(m, clock) && misses <= times(Tasks::MAX, clock)
}

// A caller may hand back any numbers whatever: the answer is the definition's for all of them.
pub fn is_formed(s: State) -> bool
    ensures { result ≡ formed s }
{
    if !is_padded(&s) {
        return false;
    }
    let t = s.table;
    let n = t.n.0 as usize;
    let clock = s.clock.0;
    let Ok(order) = priority(t) else {
        return false;
    };
    clock <= Slot::MAX
        && s.ranks[..n] == order[..n]
        && tasks_fit(&s)
        && totals_fit(t.m.0, clock, s.moves, s.misses)
}
