// A slot ends and the next begins, in one walk: a task whose deadline falls there and that has left work misses, and that work is
// dropped; the task releases its next job of C units.
ghost use Rattle.std.specs.Prelude.{◌≡◌, ◌<◌};
ghost use Rattle.engine.specs.Ends.{next_phase, Ending, Ended};

use crate::columns::Columns;
use crate::release::at_release;

fn next_phase(phase: u32, t: u32) -> u32
    requires { phase < t }
    ensures { result ≡ next_phase phase t }
{
    if phase + 1 == t { 0 } else { phase + 1 }
}

// The number of misses is returned. A task's deadline falls on the slot's end where it releases its next job.
pub fn end(columns: Columns<'_>, phase: &mut [u32], left: &mut [u32], dropped: &mut [u32]) -> u32
    requires { Ending columns.c.now columns.t.now phase.old left.old dropped.old }
    ensures { Ended columns.entry.c.now columns.entry.t.now phase.old left.old dropped.old phase.new left.new dropped.new result }
{
    let mut misses = 0;
    // By index: two lists are read and three change.
    for i in 0..left.len() {
        let next = next_phase(phase[i], columns.t[i]);
        // Read before the phase is written: the walk's vector code is then the shortest.
        let units = left[i];
        phase[i] = next;
        left[i] = at_release(next, columns.c[i], units);
        let late = at_release(next, units, 0);
        dropped[i] += late;
        misses += u32::from(0 < late);
    }
    misses
}
