// Running a count of slots from any given state into a lent buffer from a place on: refusals 9, 8, then 7, all tested before the
// first slot.
ghost use Rattle.std.specs.Prelude.{◌≡◌, ◌+◌, ◌*◌, ◌≤◌, ltb};
ghost use Rattle.rules.specs.Limits.{cores_max, clock_max};
ghost use Rattle.runs.specs.Slots.{frame_length};
ghost use Rattle.runs.specs.Answers.{Open, RunFormed, run_end, run_answer};

use crate::parts::{Parts, apart, together};
use crate::slots::{frame_length, run_slots};
use engine::columns::Columns;
use engine::counts::Counts;
use machine::formed::Formed;
use machine::state::State;
use rules::kinds::{Kind, Slot};
use rules::refusal::Refusal;
use rules::room::room;

// The clock would pass its bound.
fn is_past(clock: u32, count: u32) -> bool
    requires { clock ≤ clock_max }
    ensures { result ≡ ltb clock_max (clock + count) }
{
    Slot::MAX - clock < count
}

// How many bytes the frames of a count of slots of m cores take.
pub fn length_of(count: u32, m: u32) -> usize
    requires { m ≤ cores_max }
    ensures { result ≡ count * frame_length m }
{
    (count as usize) * frame_length(m as usize)
}

// The run itself, of a state that passed the tests, with its frames from the front of `out` on.
#[tactic(auto, using(crate::proofs::Running::long_arrays))]
fn run_formed(formed: Formed, count: u32, out: &mut [u8]) -> State
    requires { Open formed.state.now count out.old }
    ensures { RunFormed formed.entry.state.now count out.old result out.new }
{
    let s = *formed.state;
    let table = s.table;
    let n = table.n.0 as usize;
    let m = table.m.0 as usize;
    let clock = s.clock.0;
    let Parts {
        c,
        t,
        ranks,
        mut phase,
        mut left,
        mut last,
        mut done,
        mut dropped,
    } = apart(formed);
    let before = Counts {
        moves: s.moves,
        misses: s.misses,
    };
    // No method of `Parts` lends these: it would borrow the lists that change too, and a copy of those costs time in each run.
    let columns = Columns {
        c: &c[..n],
        t: &t[..n],
        ranks: &ranks[..n],
    };
    let totals = run_slots(
        clock,
        count,
        before,
        m,
        columns,
        &mut phase[..n],
        &mut left[..n],
        &mut last[..n],
        &mut done[..n],
        &mut dropped[..n],
        out,
    );
    together(s, clock + count, left, last, done, dropped, totals)
}

// One frame for each slot, each right after the last, from the place on; no other byte differs, and on a refusal none at all. The state
// after the run is returned.
pub fn run(s: State, count: u32, out: &mut [u8], at: usize) -> Result<State, Refusal>
    ensures { run_end result out.new ≡ run_answer s count out.old at }
{
    let formed = Formed::try_from(&s)?;
    if is_past(s.clock.0, count) {
        return Err(Refusal::PastClock);
    }
    room(out.len(), at, length_of(count, s.table.m.0))?;
    Ok(run_formed(formed, count, &mut out[at..]))
}

// A run of one slot.
pub fn step(s: State, out: &mut [u8], at: usize) -> Result<State, Refusal>
    ensures { run_end result out.new ≡ run_answer s 1 out.old at }
{
    run(s, 1, out, at)
}
