// What every frame starts with: the two digits of its type.
ghost use Rattle.std.specs.Prelude.{◌≡◌, ◌≤◌, length};
ghost use Rattle.laws.specs.Digits.{field};
ghost use Rattle.rules.specs.Frames.{type_number};
ghost use Rattle.rules.specs.Answers.{lay};

use rules::frame_type::FrameType;

// The first two bytes become the type; nothing after them differs.
pub fn write_type(out: &mut [u8], t: FrameType)
    requires { 2 ≤ length out.old }
    ensures { out.new ≡ lay out.old 0 (field 2 (type_number t)) }
{
    digits::write_field(out, 0, 2, u64::from(u8::from(t)));
}
