// The state in which a run of a table starts.
ghost use Rattle.std.specs.Prelude.{◌≡◌};
ghost use Rattle.rules.specs.States as States;
ghost use Rattle.tables.specs.Views as Tables;
ghost use Rattle.machine.specs.Views.{pack};
ghost use Rattle.machine.specs.Tables.{Opened};

use crate::state::State;
use rules::kinds::{CoreNumber, Slot, Units};
use tables::table::Table;
use verdicts::table::priority;

// Clock 0, no last core and every count 0.
// `Opened` is a clause and no type of a table: `struct_means` (promises) and docs/STATEMENTS.md speak of calls of `fresh` on a table struct.
pub fn fresh(t: Table) -> State
    requires { Opened t }
    ensures { result ≡ pack (States.fresh (Tables.view t)) }
{
    State {
        table: t,
        ranks: priority(t).unwrap(),
        clock: Slot(0),
        left: [Units(0); 64],
        last: [CoreNumber(0); 64],
        done: [Units(0); 64],
        dropped: [Units(0); 64],
        moves: 0,
        misses: 0,
    }
}
