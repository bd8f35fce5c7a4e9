// A state that passed the test of its form. That its arrays are full, as every state's are, and that they have a place for each task,
// stands beside it: whoever reads an entry needs it.
ghost use Rattle.std.specs.Prelude.{◌≡◌, true, ◌≤◌};
ghost use Rattle.rules.specs.Limits.{tasks_max};
ghost use Rattle.machine.specs.Views.{tasks, formed};
ghost use Rattle.machine.specs.Full.{Full};

use crate::form::is_formed;
use crate::state::State;
use rules::refusal::Refusal;

#[derive(Clone, Copy)]
pub struct Formed<'a> {
    pub state: &'a State,
    pub ghost good: { formed state.now ≡ true },
    pub ghost full: { Full state.now },
    pub ghost few: { tasks state.now ≤ tasks_max },
}

// A state by value has full arrays; of one that is lent this is not known yet.
fn is_whole(s: State) -> bool
    ensures form { result ≡ formed s }
    ensures full { Full s }
{
    is_formed(s)
}

impl<'a> TryFrom<&'a State> for Formed<'a> {
    ghost use Rattle.machine.specs.Answers.{Tested};

    type Error = Refusal;

    ghost try_from_gives = { λ s r. Tested s.now r };

    #[tactic(auto, using(crate::proofs::Asking::formed_few))]
    fn try_from(state: &'a State) -> Result<Formed<'a>, Refusal> {
        if !is_whole(*state) {
            return Err(Refusal::BadState);
        }
        Ok(Formed { state })
    }
}
