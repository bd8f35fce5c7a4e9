// Fields of two digits, one after the other: task numbers in a frame.
ghost use Rattle.std.specs.Prelude.{◌≡◌, ◌++◌, ◌*◌, ◌≤◌, length, drop};
ghost use Rattle.frames.specs.Pairs.{pairs};

// Two digits for each value; nothing after them differs.
pub fn write_pairs(out: &mut [u8], values: &[u8])
    requires { 2 * length values.now ≤ length out.old }
    ensures { out.new ≡ pairs values.now ++ drop (2 * length values.now) out.old }
{
    for (i, v) in values.iter().enumerate() {
        let at = 2 * i;
        out[at] = digits::digit(v / 16);
        out[at + 1] = digits::digit(v % 16);
    }
}
