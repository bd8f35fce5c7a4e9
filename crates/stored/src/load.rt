// Bytes read as a state, for any byte string of any length: decoded by the layout, and tested.
ghost use Rattle.std.specs.Prelude.{◌≡◌};
ghost use Rattle.stored.specs.Layout.{load as loaded};
ghost use Rattle.stored.specs.Answers.{state_answer};

use crate::decode::Stored;
use crate::{FIXED, RECORD};
use machine::formed::Formed;
use machine::state::State;
use rules::kinds::{Kind, Tasks};
use rules::refusal::Refusal;

// The state that is stored in the bytes, or 9.
pub fn load(bytes: &[u8]) -> Result<State, Refusal>
    ensures { result ≡ state_answer (loaded bytes.now) }
{
    if bytes.len() < FIXED {
        return Err(Refusal::BadState);
    }
    let n = usize::from(bytes[1]);
    if bytes.len() != FIXED + RECORD * n {
        return Err(Refusal::BadState);
    }
    if n > Tasks::MAX as usize {
        return Err(Refusal::BadState);
    }
    let stored = Stored { bytes, n };
    let state = stored.state();
    Ok(*Formed::try_from(&state)?.state)
}
