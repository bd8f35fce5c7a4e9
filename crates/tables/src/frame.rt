// Frames of two numbers in fields of one width: the header and the row are such.
ghost use Rattle.std.specs.Prelude.{◌≡◌, ◌++◌, ◌∷◌, [], ◌≤◌, length, drop};
ghost use Rattle.rules.specs.Frames.{type_number, frame, read_frame};
ghost use Rattle.rules.specs.Results.{option};
ghost use Rattle.tables.specs.Pairs.{pair_shape, pair_bytes, two_of};

use frames::fields::write_fields;
use rules::frame_type::FrameType;

const LINE_FEED: u8 = b'\n';

// The type, and the width of both fields.
#[derive(Clone, Copy)]
pub(crate) struct PairFrame {
    kind: FrameType,
    width: usize,
    ghost narrow: { width ≤ 8 },
}

pub(crate) const HEADER: PairFrame = PairFrame {
    kind: FrameType::Header,
    width: 2,
};

pub(crate) const ROW: PairFrame = PairFrame {
    kind: FrameType::Row,
    width: 4,
};

impl PairFrame {
    // The line's length, with the line feed.
    pub(crate) fn bytes(self) -> usize
        ensures { result ≡ pair_bytes self.width }
    {
        2 + self.width + self.width + 1
    }

    // The two numbers of the frame that a text begins with, or none where the line is not the frame that is due.
    pub(crate) fn read(self, s: &[u8]) -> Option<(u32, u32)>
        ensures { result ≡ option two_of (read_frame (pair_shape (type_number self.kind) self.width) s.now) }
    {
        if s.len() < self.bytes() {
            return None;
        }
        if digits::read_field(s, 0, 2)? != u64::from(u8::from(self.kind)) {
            return None;
        }
        let second = 2 + self.width;
        let a = digits::read_field(s, 2, self.width)?;
        let b = digits::read_field(s, second, self.width)?;
        if s[second + self.width] != LINE_FEED {
            return None;
        }
        Some((a as u32, b as u32))
    }

    // The frame of two numbers at the front of the lent part; nothing after it differs.
    pub(crate) fn write(self, out: &mut [u8], a: u32, b: u32)
        requires { pair_bytes self.width ≤ length out.old }
        ensures { out.new ≡ frame (pair_shape (type_number self.kind) self.width) (a ∷ b ∷ []) ++ drop (pair_bytes self.width) out.old }
    {
        write_fields(
            out,
            self.kind,
            &[(self.width, u64::from(a)), (self.width, u64::from(b))],
        );
    }
}
