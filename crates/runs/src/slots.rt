// The slots of a run, one after the other, on lent slices of plain numbers: no copy of the state and no division in the loop.
ghost use Rattle.std.specs.Prelude.{◌≡◌, ◌+◌, ◌≤◌};
ghost use Rattle.rules.specs.Limits.{cores_max};
ghost use Rattle.runs.specs.Slots.{state_of, frame_length, Runnable, RanSlots};

use engine::columns::Columns;
use engine::counts::Counts;
use engine::release::release;
use engine::slot::slot;
use frames::lent_names::Names;
use frames::names::names;
use frames::slot::write_slot;

// How many bytes the frame of a slot of m cores takes.
pub fn frame_length(m: usize) -> usize
    requires { m ≤ cores_max }
    ensures { result ≡ frame_length m }
{
    2 * m + 15
}

// A slice that speaks of tasks has one entry a task, in table order: `phase` has the slots since its last release. There are m cores.
// The lists that change are lent one by one, as to `slot`. The frames go to the front of `out`. The totals at the end are returned.
pub fn run_slots(
    clock: u32,
    count: u32,
    totals: Counts<u64>,
    m: usize,
    columns: Columns<'_>,
    phase: &mut [u32],
    left: &mut [u32],
    last: &mut [u8],
    done: &mut [u32],
    dropped: &mut [u32],
    out: &mut [u8],
) -> Counts<u64>
    requires { Runnable (state_of m clock columns.c.now columns.t.now columns.ranks.now left.old last.old done.old dropped.old totals.moves totals.misses) count columns.c.now columns.t.now phase.old out.old }
    ensures { RanSlots (state_of m clock columns.entry.c.now columns.entry.t.now columns.entry.ranks.now left.old last.old done.old dropped.old totals.moves totals.misses) count out.old (state_of m (clock + count) columns.entry.c.now columns.entry.t.now columns.entry.ranks.now left.new last.new done.new dropped.new result.moves result.misses) phase.new out.new }
{
    let width = frame_length(m);
    let n = left.len();
    let none = [0u32; 64];
    let digits = names();
    let names = Names { bytes: &digits };
    let mut moves = totals.moves;
    let mut misses = totals.misses;
    let mut place = 0;
    release(left, phase, columns.c);
    for k in 0..count {
        let mut cores = [0u8; 32];
        let shown = slot(columns, phase, left, last, done, dropped, &mut cores[..m]);
        write_slot(
            &mut out[place..],
            clock + k,
            &cores[..m],
            shown.moves,
            shown.misses,
            names,
        );
        moves += u64::from(shown.moves);
        misses += u64::from(shown.misses);
        place += width;
    }
    // The last slot's end has released the jobs of the next. Their tasks have ended their jobs before, so no units are left.
    release(left, phase, &none[..n]);
    Counts { moves, misses }
}
