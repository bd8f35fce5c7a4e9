// Frames of fields of fixed widths.
ghost use Rattle.std.specs.Prelude.{◌≡◌, ◌++◌, ◌≤◌, length, drop};
ghost use Rattle.rules.specs.Frames.{type_number};
ghost use Rattle.frames.specs.Fields.{fields_frame, fields_bytes};

use crate::start::write_type;
use rules::frame_type::FrameType;

// The frame at the front of the lent part: its type, each number in its width, and the line feed. Nothing after it differs.
pub fn write_fields(out: &mut [u8], t: FrameType, fields: &[(usize, u64)])
    requires { fields_bytes fields.now ≤ length out.old }
    ensures { out.new ≡ fields_frame (type_number t) fields.now ++ drop (fields_bytes fields.now) out.old }
{
    write_type(out, t);
    let mut at = 2;
    for &(width, v) in fields {
        digits::write_field(out, at, width, v);
        at += width;
    }
    out[at] = b'\n';
}
