ghost use Rattle.std.specs.Prelude.{◌≡◌};
ghost use Rattle.rules.specs.Frames.{type_number};

// The types of frame: those of a table file, then those of the output.
#[derive(Clone, Copy)]
pub enum FrameType {
    Header,
    Row,
    Verdict,
    Order,
    Slot,
    Totals,
    Refusal,
}

// The number that the paper gives a type.
impl From<FrameType> for u8 {
    ghost from_gives = { λ t n. n ≡ type_number t };

    fn from(t: FrameType) -> u8 {
        match t {
            FrameType::Header => 0x01,
            FrameType::Row => 0x02,
            FrameType::Verdict => 0x11,
            FrameType::Order => 0x12,
            FrameType::Slot => 0x13,
            FrameType::Totals => 0x14,
            FrameType::Refusal => 0x1f,
        }
    }
}
