ghost use Rattle.std.specs.Prelude.{◌≡◌};
ghost use Rattle.rules.specs.Verdicts.{verdict_byte};

// What the analysis says of a table.
#[derive(Clone, Copy, PartialEq, Eq)]
pub enum Verdict {
    NotAdmitted,
    Admitted,
}

// The byte that the paper gives a verdict.
impl From<Verdict> for u8 {
    ghost from_gives = { λ v b. b ≡ verdict_byte v };

    fn from(v: Verdict) -> u8 {
        match v {
            Verdict::NotAdmitted => 0,
            Verdict::Admitted => 1,
        }
    }
}
