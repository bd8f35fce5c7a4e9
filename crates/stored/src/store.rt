// A state written as bytes, field by field and record by record.
ghost use Rattle.std.specs.Prelude.{◌≡◌, ◌++◌, map, ◌+◌, ◌*◌, ◌≤◌, ◌<◌, length, drop};
ghost use Rattle.laws.specs.Lists.{join, numbers};
ghost use Rattle.tables.specs.Writes.{made};
ghost use Rattle.machine.specs.Views.{tasks, view};
ghost use Rattle.stored.specs.Layout.{written, fixed_widths, fixed_of, length_of, record_of, store as stored};
ghost use Rattle.stored.specs.Answers.{stored_state};

use crate::bytes::write_numbers;
use crate::{FIXED, RECORD};
use machine::formed::Formed;
use machine::state::State;
use rules::refusal::Refusal;
use rules::room::room;

// The fixed part at the front of the lent part; nothing after it differs.
fn write_fixed(out: &mut [u8], formed: Formed)
    requires { 22 ≤ length out.old }
    ensures { out.new ≡ written fixed_widths (fixed_of (view formed.entry.state.now)) ++ drop 22 out.old }
{
    let s = formed.state;
    write_numbers(
        out,
        &[
            (1, u64::from(s.table.m.0)),
            (1, u64::from(s.table.n.0)),
            (4, u64::from(s.clock.0)),
            (8, s.moves),
            (8, s.misses),
        ],
    );
}

// The record of the task at index i at the front of the lent part; nothing after it differs.
fn write_task(out: &mut [u8], formed: Formed, i: usize)
    requires room { 34 ≤ length out.old }
    requires among { i < tasks formed.state.now }
    ensures { out.new ≡ record_of (view formed.entry.state.now) (i + 1) ++ drop 34 out.old }
{
    let s = formed.state;
    let row = s.table.rows[i];
    write_numbers(
        out,
        &[
            (4, u64::from(row.c)),
            (4, u64::from(row.t)),
            (1, u64::from(s.ranks[i].0)),
            (1, u64::from(s.last[i].0)),
            (8, s.left[i].0),
            (8, s.done[i].0),
            (8, s.dropped[i].0),
        ],
    );
}

// The records of all tasks, one right after the other.
fn write_tasks(out: &mut [u8], formed: Formed)
    requires { 34 * tasks formed.state.now ≤ length out.old }
    ensures { out.new ≡ join (map (record_of (view formed.entry.state.now)) (numbers (tasks formed.entry.state.now))) ++ drop (34 * tasks formed.entry.state.now) out.old }
{
    for i in 0..formed.state.table.n.0 as usize {
        write_task(&mut out[RECORD * i..], formed, i);
    }
}

// The bytes of a state at the front of the lent part; nothing after them differs.
fn write_state(out: &mut [u8], formed: Formed)
    requires { length_of (tasks formed.state.now) ≤ length out.old }
    ensures { out.new ≡ stored (view formed.entry.state.now) ++ drop (length_of (tasks formed.entry.state.now)) out.old }
{
    write_fixed(out, formed);
    write_tasks(&mut out[FIXED..], formed);
}

// The bytes of a state, from a place of the buffer on: 9, then 7. No other byte differs, and on a refusal none at all. How many
// bytes were written is returned.
pub fn store(s: State, out: &mut [u8], at: usize) -> Result<usize, Refusal>
    ensures { made result out.new ≡ stored_state s out.old at }
{
    let formed = Formed::try_from(&s)?;
    let size = FIXED + RECORD * (s.table.n.0 as usize);
    room(out.len(), at, size)?;
    write_state(&mut out[at..], formed);
    Ok(size)
}
