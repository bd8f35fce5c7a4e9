// Frames `11` and `12`, written at the front of a lent part of a buffer: nothing after them differs.
ghost use Rattle.std.specs.Prelude.{◌≡◌, ◌++◌, ◌+◌, ◌*◌, ◌≤◌, length, drop};
ghost use Rattle.rules.specs.Runs.{order_line};
ghost use Rattle.verdicts.specs.Lines.{verdict_frame};

use frames::fields::write_fields;
use frames::start::write_type;
use rules::frame_type::FrameType;
use rules::verdict::Verdict;

// Frame `11`: the verdict, the number of heavy tasks, H.
pub fn write_verdict(out: &mut [u8], v: Verdict, heavy: u32, h: u32)
    requires { 15 ≤ length out.old }
    ensures { out.new ≡ verdict_frame v heavy h ++ drop 15 out.old }
{
    write_fields(
        out,
        FrameType::Verdict,
        &[
            (2, u64::from(u8::from(v))),
            (2, u64::from(heavy)),
            (8, u64::from(h)),
        ],
    );
}

// Frame `12`: the task numbers, highest priority first.
pub fn write_order(out: &mut [u8], ranks: &[u8])
    requires { 2 * length ranks.now + 3 ≤ length out.old }
    ensures { out.new ≡ order_line ranks.now ++ drop (2 * length ranks.now + 3) out.old }
{
    let feed = 2 + 2 * ranks.len();
    write_type(out, FrameType::Order);
    frames::pairs::write_pairs(&mut out[2..], ranks);
    out[feed] = b'\n';
}
