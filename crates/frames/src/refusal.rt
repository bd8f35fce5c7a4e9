// Frame `1f`: refusal, line.
ghost use Rattle.std.specs.Prelude.{◌≡◌, ◌++◌, ◌∷◌, [], ◌≤◌, length, drop};
ghost use Rattle.rules.specs.Frames.{refusal, frame};

use crate::fields::write_fields;
use rules::frame_type::FrameType;

pub fn write_refusal(out: &mut [u8], number: u8, line: u32)
    requires { 9 ≤ length out.old }
    ensures { out.new ≡ frame refusal (number ∷ line ∷ []) ++ drop 9 out.old }
{
    write_fields(
        out,
        FrameType::Refusal,
        &[(2, u64::from(number)), (4, u64::from(line))],
    );
}
