// Counts of different things are of different types: slots (instants of time) apart from units of execution, task and
// core numbers apart from both. Each bound stands here once, as a constant of the kind that it bounds. A number from outside
// is tested against it by `new`.
ghost use Rattle.std.specs.Prelude.{◌≡◌, ℕ};
ghost use Rattle.rules.specs.Limits.{cores_min, cores_max, tasks_min, tasks_max, period_max, repeat_max, clock_max};
ghost use Rattle.rules.specs.Tables.{outside};
ghost use Rattle.rules.specs.Kinds.{within};

// Whether x is below low or above high.
pub fn is_outside(x: u32, low: u32, high: u32) -> bool
    ensures { result ≡ outside x low high }
{
    !(low..=high).contains(&x)
}

// A kind of number with bounds. Each has an `impl` of its own, which says its type and its two limits: document 01 names tuple structs, each
// over its own integer.
pub trait Kind: Sized {
    ghost MIN: { ℕ };

    ghost MAX: { ℕ };

    ghost of: { ℕ → Self };

    const MIN: u32;

    const MAX: u32;

    // A number as one of this kind, without a test: `new` calls it.
    fn of(x: u32) -> Self
        ensures { result ≡ of x };

    // A number from outside, if it lies within the bounds.
    fn new(x: u32) -> Option<Self>
        ensures { result ≡ within MIN MAX of x }
    {
        if is_outside(x, Self::MIN, Self::MAX) {
            None
        } else {
            Some(Self::of(x))
        }
    }
}

// How many cores there are: m.
#[derive(Clone, Copy, PartialEq, Eq)]
pub struct Cores(pub u32);

impl Kind for Cores {
    ghost MIN = { cores_min };

    ghost MAX = { cores_max };

    ghost of = { λ m. record { 0 = m } };

    const MIN: u32 = 2;

    const MAX: u32 = 32;

    fn of(m: u32) -> Cores {
        Cores(m)
    }
}

// How many tasks there are: n. They are numbered from 1 in table order.
#[derive(Clone, Copy, PartialEq, Eq)]
pub struct Tasks(pub u32);

impl Kind for Tasks {
    ghost MIN = { tasks_min };

    ghost MAX = { tasks_max };

    ghost of = { λ n. record { 0 = n } };

    const MIN: u32 = 1;

    const MAX: u32 = 64;

    fn of(n: u32) -> Tasks {
        Tasks(n)
    }
}

// A period T, in slots.
#[derive(Clone, Copy, PartialEq, Eq)]
pub struct Period(pub u32);

impl Kind for Period {
    ghost MIN = { 1 };

    ghost MAX = { period_max };

    ghost of = { λ t. record { 0 = t } };

    const MIN: u32 = 1;

    const MAX: u32 = 65_535;

    fn of(t: u32) -> Period {
        Period(t)
    }
}

// A repeat length H, in slots.
#[derive(Clone, Copy, PartialEq, Eq)]
pub struct Repeat(pub u32);

impl Kind for Repeat {
    ghost MIN = { 1 };

    ghost MAX = { repeat_max };

    ghost of = { λ h. record { 0 = h } };

    const MIN: u32 = 1;

    const MAX: u32 = 1_000_000_000;

    fn of(h: u32) -> Repeat {
        Repeat(h)
    }
}

// An instant of time: a slot, or the boundary before it. The clock is one.
#[derive(Clone, Copy, PartialEq, Eq)]
pub struct Slot(pub u32);

impl Kind for Slot {
    ghost MIN = { 0 };

    ghost MAX = { clock_max };

    ghost of = { λ s. record { 0 = s } };

    const MIN: u32 = 0;

    const MAX: u32 = 1_000_000_000;

    fn of(s: u32) -> Slot {
        Slot(s)
    }
}

// Units of execution: what a job asks for, was given, or lost.
#[derive(Clone, Copy, PartialEq, Eq)]
pub struct Units(pub u64);

// The number of a task, from 1 in table order.
#[derive(Clone, Copy, PartialEq, Eq)]
pub struct TaskNumber(pub u8);

// The number of a core, from 1; 0 for none.
#[derive(Clone, Copy, PartialEq, Eq)]
pub struct CoreNumber(pub u8);
