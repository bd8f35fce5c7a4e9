// Frame `13`: slot, the task on core 1 to core m, moves in the slot, misses at its end.
ghost use Rattle.std.specs.Prelude.{◌≡◌, ◌++◌, ◌+◌, ◌*◌, ◌≤◌, length, drop};
ghost use Rattle.laws.specs.Digits.{field};
ghost use Rattle.rules.specs.Frames.{type_number};
ghost use Rattle.rules.specs.declared.frame_type.FrameType.TheVariants.{Slot};
ghost use Rattle.rules.specs.Runs.{slot_line};
ghost use Rattle.frames.specs.Slots.{shown_as};

use crate::lent_names::Names;
use crate::pairs::write_pairs;
use crate::start::write_type;
use rules::frame_type::FrameType;

// The type and the slot's number at the front of the lent part; nothing after them differs.
fn write_number(out: &mut [u8], slot: u32, names: Names<'_>)
    requires { 10 ≤ length out.old }
    ensures { out.new ≡ field 2 (type_number Slot) ++ field 8 slot ++ drop 10 out.old }
{
    let third = slot / 256;
    let second = third / 256;
    let first = second / 256;
    write_type(out, FrameType::Slot);
    names.write(out, 2, first);
    names.write(out, 4, second);
    names.write(out, 6, third);
    names.write(out, 8, slot);
}

// The whole frame at the front of the lent part; nothing after it differs.
pub fn write_slot(
    out: &mut [u8],
    slot: u32,
    cores: &[u8],
    moves: u32,
    misses: u32,
    names: Names<'_>,
)
    requires { 2 * length cores.now + 15 ≤ length out.old }
    ensures { out.new ≡ slot_line (shown_as slot cores.now moves misses) ++ drop (2 * length cores.now + 15) out.old }
{
    let end = 2 * cores.len() + 10;
    let last = end + 2;
    let feed = end + 4;
    write_number(out, slot, names);
    write_pairs(&mut out[10..], cores);
    names.write(out, end, moves);
    names.write(out, last, misses);
    out[feed] = b'\n';
}
