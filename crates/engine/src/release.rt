// Slot s begins: a task whose period divides s releases a job of its C units. This is for the first slot of a run, and to take back what
// was released after its last: between two slots the end of the first does it.
ghost use Rattle.std.specs.Prelude.{◌≡◌, cond, length, eqb};
ghost use Rattle.engine.specs.Step.{released_on};

// Of two values for a task the one for a slot in which it releases, that is at phase 0, or the one for any other slot.
pub(crate) fn at_release(phase: u32, released: u32, other: u32) -> u32
    ensures { result ≡ cond (eqb phase 0) released other }
{
    if phase == 0 { released } else { other }
}

// `phase` has, for each task, the slots since its last release; 0 where it releases now. It and `c` lie beside `left`, as in `Columns`.
pub fn release(left: &mut [u32], phase: &[u32], c: &[u32])
    requires { (length phase.now ≡ length left.old) × (length c.now ≡ length left.old) }
    ensures { left.new ≡ released_on c.now phase.now left.old }
{
    for (i, units) in left.iter_mut().enumerate() {
        *units = at_release(phase[i], c[i], *units);
    }
}
