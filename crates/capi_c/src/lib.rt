// What a C program links: each call of `capi` under its own name, with its own clause. C knows a function by its name alone, so that
// none of them can be one generic function.
//
// In C a slice is a pointer and a length, a `&mut` of a number a pointer. The proofs go by each lent part being there and being its own:
// the caller sees to it that no two parts lent to one call overlap where one of them is written.
#![tactic(auto)]

ghost use Rattle.std.specs.Prelude.{◌≡◌};
ghost use Rattle.tables.specs.Lists.{list_rows};
ghost use Rattle.capi.specs.Calls.{reply, replied, filled, read, opened, run as ran_with};
ghost use Rattle.capi.specs.Calls.{open_file, open_list, write_rows, give_verdict, run_stored, give_totals, give_lead, give_report};

#[unsafe(no_mangle)]
pub extern "C" fn zq_open(file: &[u8], state: &mut [u8], size: &mut usize, line: &mut u32) -> u32
    ensures { read (reply result (filled state.new size.new)) line.new ≡ opened (filled state.old size.old) (open_file file.now state.old) }
{
    capi::table::zq_open(file, state, size, line)
}

#[unsafe(no_mangle)]
pub extern "C" fn zq_open_list(m: u32, rows: &[[u32; 2]], state: &mut [u8], size: &mut usize) -> u32
    ensures { reply result (filled state.new size.new) ≡ replied (filled state.old size.old) (open_list m (list_rows rows.now) state.old) }
{
    capi::table::zq_open_list(m, rows, state, size)
}

#[unsafe(no_mangle)]
pub extern "C" fn zq_write_list(
    m: u32,
    rows: &[[u32; 2]],
    out: &mut [u8],
    at: usize,
    size: &mut usize,
) -> u32
    ensures { reply result (filled out.new size.new) ≡ replied (filled out.old size.old) (write_rows m (list_rows rows.now) out.old at) }
{
    capi::table::zq_write_list(m, rows, out, at, size)
}

#[unsafe(no_mangle)]
pub extern "C" fn zq_verdict(state: &[u8], out: &mut [u8], at: usize, size: &mut usize) -> u32
    ensures { reply result (filled out.new size.new) ≡ replied (filled out.old size.old) (give_verdict state.now out.old at) }
{
    capi::verdict::zq_verdict(state, out, at, size)
}

#[unsafe(no_mangle)]
pub extern "C" fn zq_run(
    state: &mut [u8],
    count: u32,
    out: &mut [u8],
    at: usize,
    size: &mut usize,
) -> u32
    ensures { reply result (ran_with state.new out.new size.new) ≡ replied (ran_with state.old out.old size.old) (run_stored state.old count out.old at) }
{
    capi::state::zq_run(state, count, out, at, size)
}

#[unsafe(no_mangle)]
pub extern "C" fn zq_totals(state: &[u8], out: &mut [u8], at: usize, size: &mut usize) -> u32
    ensures { reply result (filled out.new size.new) ≡ replied (filled out.old size.old) (give_totals state.now out.old at) }
{
    capi::state::zq_totals(state, out, at, size)
}

#[unsafe(no_mangle)]
pub extern "C" fn zq_lead(state: &[u8], task: u32, lead: &mut i64) -> u32
    ensures { reply result lead.new ≡ replied lead.old (give_lead state.now task) }
{
    capi::state::zq_lead(state, task, lead)
}

#[unsafe(no_mangle)]
pub extern "C" fn zq_report(input: &[u8], out: &mut [u8], at: usize, size: &mut usize) -> u32
    ensures { reply result (filled out.new size.new) ≡ replied (filled out.old size.old) (give_report input.now out.old at) }
{
    capi::program::zq_report(input, out, at, size)
}
