// The work of a slot: a chosen task does one unit.
ghost use Rattle.engine.specs.Work.{Waiting, Served};

// Task i does one unit.
pub fn serve(i: u8, left: &mut [u32], done: &mut [u32])
    requires { Waiting i left.old done.old }
    ensures { Served i left.old done.old left.new done.new }
{
    let j = usize::from(i - 1);
    left[j] -= 1;
    done[j] += 1;
}
