// The text of an accepted table: frames `11` and `12`, one `13` a slot, and `14`.
ghost use Rattle.std.specs.Prelude.{◌≡◌, ◌++◌, drop};
ghost use Rattle.rules.specs.Program.{report};
ghost use Rattle.tables.specs.Views.{view};
ghost use Rattle.machine.specs.Tables.{Opened};
ghost use Rattle.reports.specs.Heads.{Room};
ghost use Rattle.reports.specs.Texts.{slots_of, run_lines, run_length, report_length, RunRoom};

use crate::head::{head_length, write_head};
use machine::totals::TOTALS_LENGTH;
use runs::run::length_of;
use tables::table::Table;

// What is run at most, in slots.
const SLOTS_MAX: u32 = 4096;

// How many slots are run: the smaller of H and the bound.
fn slots_of(t: Table) -> u32
    ensures { result ≡ slots_of (view t) }
{
    match tables::repeat::repeat_length(t) {
        Some(h) => h.0.min(SLOTS_MAX),
        None => SLOTS_MAX,
    }
}

// How many bytes all of the text takes. `Opened` is a clause: see `machine::fresh::fresh`.
pub fn report_length(t: Table) -> usize
    requires { Opened t }
    ensures { result ≡ report_length (view t) }
{
    head_length(t) + (length_of(slots_of(t), t.m.0) + TOTALS_LENGTH)
}

// The frames of a count of slots from the fresh state, and of the totals after them, at the front of the lent part; nothing after
// them differs.
fn write_run(out: &mut [u8], t: Table, count: u32)
    requires { RunRoom t count out.old }
    ensures { out.new ≡ run_lines (view t) count ++ drop (run_length (view t).m count) out.old }
{
    let end = length_of(count, t.m.0);
    let start = machine::fresh::fresh(t);
    let state = runs::run::run(start, count, out, 0).unwrap();
    machine::totals::write_totals(state, &mut out[end..], 0).unwrap();
}

// All of the text at the front of the lent part; nothing after it differs.
pub fn write_report(out: &mut [u8], t: Table)
    requires { Room t (report_length (view t)) out.old }
    ensures { out.new ≡ report (view t) ++ drop (report_length (view t)) out.old }
{
    let at = head_length(t);
    let count = slots_of(t);
    write_head(out, t);
    write_run(&mut out[at..], t, count);
}
