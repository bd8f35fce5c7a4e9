// How far a task is ahead of its even share, or behind it.
ghost use Rattle.std.specs.Prelude.{◌≡◌, pos, ◌-ℤ◌};
ghost use Rattle.rules.specs.Answers.{ask_lead};
ghost use Rattle.machine.specs.Answers.{asked, lead_answer, Small};

use crate::formed::Formed;
use crate::state::State;
use rules::kinds::is_outside;
use rules::refusal::Refusal;
use verdicts::share::times;

// a - b, a signed number.
fn difference(a: u64, b: u64) -> i64
    requires { Small a b }
    ensures { result ≡ pos a -ℤ pos b }
{
    (a as i64) - (b as i64)
}

// done × T - t × C of task i at boundary t.
pub fn lead(s: State, i: u32) -> Result<i64, Refusal>
    ensures { result ≡ lead_answer (asked s (λ st. ask_lead st i)) }
{
    let s = Formed::try_from(&s)?.state;
    let t = s.table;
    if is_outside(i, 1, t.n.0) {
        return Err(Refusal::BadTasks);
    }
    let k = (i - 1) as usize;
    let worked = s.done[k].0 * u64::from(t.rows[k].t);
    Ok(difference(worked, times(s.clock.0, t.rows[k].c)))
}
