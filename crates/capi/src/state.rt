// Stored states: run, and asked for the totals and for a task's lead.
ghost use Rattle.std.specs.Prelude.{◌≡◌, ℕ};
ghost use Rattle.rules.specs.Refusals.{and_then};
ghost use Rattle.rules.specs.Answers.{write_totals as totals_of};
ghost use Rattle.rules.specs.Results.{plain_reply};
ghost use Rattle.tables.specs.Writes.{made, wrote};
ghost use Rattle.stored.specs.Layout.{load as load_of};
ghost use Rattle.capi.specs.Calls.{reply, replied, filled, run as ran_with, run_stored, give_totals, give_lead};
ghost use Rattle.capi.specs.Answers.{ran_as};

use crate::answer::settle;
use machine::lead::lead;
use machine::totals::write_totals;
use rules::refusal::Refusal;
use runs::run::{length_of, run};
use stored::load::load;
use stored::store::store;

// A run of a stored state: its frames go into `out` from place `at` on, and the bytes of the state after it become `state`. They are as
// many as those of the state before, so that storing them is not refused. How many bytes the frames take is returned.
fn run_over(state: &mut [u8], count: u32, out: &mut [u8], at: usize) -> Result<usize, Refusal>
    ensures { (before : ℕ) → ran_as before result state.new out.new ≡ replied (ran_with state.old out.old before) (run_stored state.old count out.old at) }
{
    let s = load(state)?;
    let after = run(s, count, out, at)?;
    store(after, state, 0).unwrap();
    Ok(length_of(count, s.table.m.0))
}

// Frame `14` of a stored state.
fn write_totals_of(state: &[u8], out: &mut [u8], at: usize) -> Result<usize, Refusal>
    ensures { made result out.new ≡ wrote 51 out.old (and_then (load_of state.now) (λ st. totals_of st out.old at)) }
{
    write_totals(load(state)?, out, at)
}

// The lead of a task of a stored state.
fn lead_of(state: &[u8], task: u32) -> Result<i64, Refusal>
    ensures { result ≡ plain_reply (λ z. z) (give_lead state.now task) }
{
    lead(load(state)?, task)
}

// Runs a count of slots: their frames go into `out` from place `at` on, the bytes of the state after them become `state`.
pub fn zq_run(state: &mut [u8], count: u32, out: &mut [u8], at: usize, size: &mut usize) -> u32
    ensures { reply result (ran_with state.new out.new size.new) ≡ replied (ran_with state.old out.old size.old) (run_stored state.old count out.old at) }
{
    settle(run_over(state, count, out, at), size)
}

// Writes frame `14` of a state, from place `at` on.
pub fn zq_totals(state: &[u8], out: &mut [u8], at: usize, size: &mut usize) -> u32
    ensures { reply result (filled out.new size.new) ≡ replied (filled out.old size.old) (give_totals state.now out.old at) }
{
    settle(write_totals_of(state, out, at), size)
}

// The lead of a task becomes `lead`.
pub fn zq_lead(state: &[u8], task: u32, lead: &mut i64) -> u32
    ensures { reply result lead.new ≡ replied lead.old (give_lead state.now task) }
{
    settle(lead_of(state, task), lead)
}
