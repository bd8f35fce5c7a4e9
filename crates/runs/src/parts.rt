// A state taken apart into arrays of plain numbers before a run, and put together after it: once a run, for the tasks alone.
ghost use Rattle.std.specs.Prelude.{◌≡◌, ◌≤◌};
ghost use Rattle.rules.specs.Limits.{tasks_max};
ghost use Rattle.machine.specs.Views.{view};
ghost use Rattle.runs.specs.Parts.{parts_of, joined};

use engine::counts::Counts;
use machine::formed::Formed;
use machine::state::State;
use rules::kinds::{CoreNumber, Slot, Units};

// One entry a task, and 0 past the last: C and T, the slots since the last release, and what the state has of the task.
// Lists side by side, and no list of tasks: a slot's walks over that took a fifth more time at 16 and at 64 tasks.
#[derive(Clone, Copy)]
pub struct Parts {
    pub c: [u32; 64],
    pub t: [u32; 64],
    pub ranks: [u8; 64],
    pub phase: [u32; 64],
    pub left: [u32; 64],
    pub last: [u8; 64],
    pub done: [u32; 64],
    pub dropped: [u32; 64],
}

// Units of a task of a well-formed state are at most what was released of it, which fits 32 bits.
pub fn apart(formed: Formed) -> Parts
    ensures { result ≡ parts_of (view formed.entry.state.now) }
{
    let s = formed.state;
    let mut c = [0u32; 64];
    let mut t = [0u32; 64];
    let mut ranks = [0u8; 64];
    let mut phase = [0u32; 64];
    let mut left = [0u32; 64];
    let mut last = [0u8; 64];
    let mut done = [0u32; 64];
    let mut dropped = [0u32; 64];
    let table = s.table;
    let n = table.n.0 as usize;
    let clock = s.clock.0;
    for i in 0..n {
        let row = table.rows[i];
        c[i] = row.c;
        t[i] = row.t;
        ranks[i] = s.ranks[i].0;
        phase[i] = clock % row.t;
        left[i] = s.left[i].0 as u32;
        last[i] = s.last[i].0;
        done[i] = s.done[i].0 as u32;
        dropped[i] = s.dropped[i].0 as u32;
    }
    Parts {
        c,
        t,
        ranks,
        phase,
        left,
        last,
        done,
        dropped,
    }
}

// The table and its order are those of `s`. The lists come one by one: a run hands `Parts` on as single lists, and to make one of them
// for this call alone is no plainer.
pub fn together(
    s: State,
    clock: u32,
    left: [u32; 64],
    last: [u8; 64],
    done: [u32; 64],
    dropped: [u32; 64],
    totals: Counts<u64>,
) -> State
    requires { s.table.n.0 ≤ tasks_max }
    ensures { result ≡ joined s clock left last done dropped totals.moves totals.misses }
{
    let mut lefts = [Units(0); 64];
    let mut lasts = [CoreNumber(0); 64];
    let mut dones = [Units(0); 64];
    let mut drops = [Units(0); 64];
    let table = s.table;
    let ranks = s.ranks;
    let n = table.n.0 as usize;
    for i in 0..n {
        lefts[i] = Units(u64::from(left[i]));
        lasts[i] = CoreNumber(last[i]);
        dones[i] = Units(u64::from(done[i]));
        drops[i] = Units(u64::from(dropped[i]));
    }
    State {
        table,
        ranks,
        clock: Slot(clock),
        left: lefts,
        last: lasts,
        done: dones,
        dropped: drops,
        moves: totals.moves,
        misses: totals.misses,
    }
}
