// One slot: choose, place and work, and at its end the deadlines and the next releases.
ghost use Rattle.std.specs.Prelude.{◌≡◌, length};
ghost use Rattle.engine.specs.Placing.{Idle};
ghost use Rattle.engine.specs.Step.{stepped, step_on, Ready};

use crate::choose::choose;
use crate::columns::Columns;
use crate::counts::Counts;
use crate::end::end;
use crate::place::place;

// `phase` has the slots since each task's last release. The jobs of the slot are released in `left` before it, and those of the next
// slot after it. No core holds a task before it; the placing is put into `cores`.
// The moves in the slot and the misses at its end are returned.
pub fn slot(
    columns: Columns<'_>,
    phase: &mut [u32],
    left: &mut [u32],
    last: &mut [u8],
    done: &mut [u32],
    dropped: &mut [u32],
    cores: &mut [u8],
) -> Counts<u32>
    requires { Ready (length cores.old) columns.c.now columns.t.now columns.ranks.now phase.old left.old last.old done.old dropped.old × Idle cores.old }
    ensures { stepped phase.new left.new last.new done.new dropped.new cores.new result.moves result.misses ≡ step_on (length cores.old) columns.entry.c.now columns.entry.t.now columns.entry.ranks.now phase.old left.old last.old done.old dropped.old }
{
    let mut chosen = [0u8; 32];
    let m = cores.len();
    let k = choose(columns.ranks, left, &mut chosen[..m]);
    let moves = place(&chosen[..k], last, cores, left, done);
    let misses = end(columns, phase, left, dropped);
    Counts { moves, misses }
}
