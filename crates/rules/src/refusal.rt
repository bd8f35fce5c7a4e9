ghost use Rattle.std.specs.Prelude.{◌≡◌};
ghost use Rattle.rules.specs.Refusals.{number_of};

// The conditions on which something is refused, in the order of their numbers.
#[derive(Clone, Copy, PartialEq, Eq)]
pub enum Refusal {
    BadLine,
    BadCores,
    BadTasks,
    BadRow,
    BadRepeat,
    Trailing,
    NoRoom,
    PastClock,
    BadState,
}

impl Refusal {
    // This refusal at a line of a file, 0 where no line is meant.
    pub fn at(self, line: u32) -> Refused
        ensures { result ≡ record { refusal = self; line = line } }
    {
        Refused {
            refusal: self,
            line,
        }
    }
}

// The number that the paper gives a refusal.
impl From<Refusal> for u8 {
    ghost from_gives = { λ r n. n ≡ number_of r };

    fn from(r: Refusal) -> u8 {
        match r {
            Refusal::BadLine => 1,
            Refusal::BadCores => 2,
            Refusal::BadTasks => 3,
            Refusal::BadRow => 4,
            Refusal::BadRepeat => 5,
            Refusal::Trailing => 6,
            Refusal::NoRoom => 7,
            Refusal::PastClock => 8,
            Refusal::BadState => 9,
        }
    }
}

// A refusal and its line.
#[derive(Clone, Copy, PartialEq, Eq)]
pub struct Refused {
    pub refusal: Refusal,
    pub line: u32,
}

// The refusal, whatever its line.
impl From<Refused> for Refusal {
    ghost from_gives = { λ refused r. r ≡ refused.refusal };

    fn from(refused: Refused) -> Refusal {
        refused.refusal
    }
}
