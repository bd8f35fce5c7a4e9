// Verdict and order of a stored state's table.
ghost use Rattle.std.specs.Prelude.{◌≡◌};
ghost use Rattle.tables.specs.Views.{view};
ghost use Rattle.tables.specs.Writes.{made, wrote_text};
ghost use Rattle.machine.specs.Tables.{Opened};
ghost use Rattle.reports.specs.Heads.{head};
ghost use Rattle.stored.specs.Layout.{load as load_of};
ghost use Rattle.capi.specs.Calls.{reply, replied, filled, give_verdict};
ghost use Rattle.capi.specs.Answers.{head_of};

use crate::answer::settle;
use reports::head::{head_length, write_head};
use rules::refusal::Refusal;
use rules::room::room;
use stored::load::load;
use tables::table::Table;

// Both frames of a table, from a place of the buffer on. `Opened` is a clause: see `machine::fresh::fresh`.
fn write_head_at(t: Table, out: &mut [u8], at: usize) -> Result<usize, Refusal>
    requires { Opened t }
    ensures { made result out.new ≡ wrote_text out.old at (head (view t)) }
{
    let size = head_length(t);
    room(out.len(), at, size)?;
    write_head(&mut out[at..], t);
    Ok(size)
}

// Those of the table of a stored state.
fn judge(state: &[u8], out: &mut [u8], at: usize) -> Result<usize, Refusal>
    ensures { made result out.new ≡ head_of (load_of state.now) out.old at }
{
    let s = load(state)?;
    write_head_at(s.table, out, at)
}

// Writes frames `11` and `12` of a state's table, from place `at` on.
pub fn zq_verdict(state: &[u8], out: &mut [u8], at: usize, size: &mut usize) -> u32
    ensures { reply result (filled out.new size.new) ≡ replied (filled out.old size.old) (give_verdict state.now out.old at) }
{
    settle(judge(state, out, at), size)
}
