// The totals of a run: frame `14`.
ghost use Rattle.std.specs.Prelude.{◌≡◌, ◌++◌, ◌∷◌, [], ◌≤◌, length, drop};
ghost use Rattle.laws.specs.Lists.{sum};
ghost use Rattle.rules.specs.Frames.{totals, frame};
ghost use Rattle.rules.specs.Answers.{write_totals};
ghost use Rattle.tables.specs.Writes.{made, wrote};
ghost use Rattle.machine.specs.Views.{view};
ghost use Rattle.machine.specs.Answers.{asked};

use crate::formed::Formed;
use crate::state::State;
use frames::fields::write_fields;
use rules::frame_type::FrameType;
use rules::refusal::Refusal;
use rules::room::room;

// How many bytes the frame takes.
pub const TOTALS_LENGTH: usize = 51;

// The frame at the front of the lent part; nothing after it differs.
fn write_frame(out: &mut [u8], moves: u64, misses: u64, dropped: u64)
    requires { 51 ≤ length out.old }
    ensures { out.new ≡ frame totals (moves ∷ misses ∷ dropped ∷ []) ++ drop 51 out.old }
{
    write_fields(
        out,
        FrameType::Totals,
        &[(16, moves), (16, misses), (16, dropped)],
    );
}

// The units dropped of all tasks.
fn dropped_units(formed: Formed) -> u64
    ensures { result ≡ sum (view formed.entry.state.now).dropped }
{
    let s = formed.state;
    s.dropped[..s.table.n.0 as usize].iter().map(|x| x.0).sum()
}

// The frame of a state's totals, from a place of the buffer on: 9, then 7. No other byte differs, and on a refusal none at all. How many
// bytes were written is returned.
pub fn write_totals(s: State, out: &mut [u8], at: usize) -> Result<usize, Refusal>
    ensures { made result out.new ≡ wrote 51 out.old (asked s (λ st. write_totals st out.old at)) }
{
    let formed = Formed::try_from(&s)?;
    room(out.len(), at, TOTALS_LENGTH)?;
    write_frame(&mut out[at..], s.moves, s.misses, dropped_units(formed));
    Ok(TOTALS_LENGTH)
}
