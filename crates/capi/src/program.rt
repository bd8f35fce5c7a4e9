// The program's whole text.
ghost use Rattle.std.specs.Prelude.{◌≡◌};
ghost use Rattle.capi.specs.Calls.{reply, replied, filled, give_report};

use crate::answer::settle;
use reports::report::report;

// Writes what the program prints for an input, from place `at` on.
pub fn zq_report(input: &[u8], out: &mut [u8], at: usize, size: &mut usize) -> u32
    ensures { reply result (filled out.new size.new) ≡ replied (filled out.old size.old) (give_report input.now out.old at) }
{
    settle(report(input, out, at), size)
}
