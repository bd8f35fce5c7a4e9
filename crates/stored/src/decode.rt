// The state that bytes stand for by the layout.
ghost use Rattle.std.specs.Prelude.{◌≡◌, ℕ, ◌≤◌, ◌<◌, length, map, slice_index_or};
ghost use Rattle.laws.specs.Lists.{numbers, each};
ghost use Rattle.rules.specs.Limits.{tasks_max};
ghost use Rattle.tables.specs.Views.{pack_row, pack_rows};
ghost use Rattle.machine.specs.Views.{task_number, core_number, units as units_of, packed, pack};
ghost use Rattle.stored.specs.Layout.{place_of, length_of, size_in, decoded};
ghost use Rattle.stored.specs.Places.{Within, row_at, cell};

use crate::bytes::read_bytes;
use crate::{FIXED, RECORD};
use machine::state::State;
use rules::kinds::{CoreNumber, Cores, Slot, TaskNumber, Tasks, Units};
use tables::table::{Row, Table};

// Where the numbers of task 1 stand; those of the next task stand a record further on.
const RANKS: usize = 30;

const LASTS: usize = 31;

const LEFTS: usize = 32;

const DONES: usize = 40;

const DROPS: usize = 48;

// What `of` gives for each of the first n tasks, and `blank` after them.
fn each_task<T: Copy, F: Fn(usize) -> T>(n: usize, blank: T, of: F) -> [T; 64]
    requires few { n ≤ tasks_max }
    requires callable { (i : ℕ) → i < n → F.pre of i }
    ensures long { length result ≡ tasks_max }
    ensures front { (i : ℕ) → i < n → F.post of i (slice_index_or result i blank) }
    ensures past { (i : ℕ) → n ≤ i → slice_index_or result i blank ≡ blank }
{
    let mut all = [blank; 64];
    for i in 0..n {
        all[i] = of(i);
    }
    all
}

// The row whose bytes begin at a place.
fn row_at(bytes: &[u8], at: usize) -> Row
    requires { Within bytes.now at 8 }
    ensures { result ≡ pack_row (row_at bytes.now at) }
{
    Row {
        c: read_bytes(bytes, at, 4) as u32,
        t: read_bytes(bytes, at + 4, 4) as u32,
    }
}

// A byte string of n tasks, which is as long as n asks for.
#[derive(Clone, Copy)]
pub(crate) struct Stored<'a> {
    pub(crate) bytes: &'a [u8],
    pub(crate) n: usize,
    ghost few: { n ≤ tasks_max },
    ghost long: { length bytes.now ≡ length_of n },
    ghost said: { n ≡ size_in bytes.now },
}

impl Stored<'_> {
    fn rows(&self) -> [Row; 64]
        ensures { result ≡ pack_rows (map (λ i. row_at self.now.bytes.now (place_of i)) (numbers self.now.n)) }
    {
        each_task(
            self.n,
            Row { c: 0, t: 0 },
            |i| row_at(self.bytes, FIXED + RECORD * i),
        )
    }

    // This and the three around it are each one call of `each_task`: the type, the blank entry and the place are what they differ in.
    fn ranks(&self) -> [TaskNumber; 64]
        ensures { result ≡ packed task_number (each self.now.n (cell self.now.bytes.now 30 1)) }
    {
        each_task(
            self.n,
            TaskNumber(0),
            |i| TaskNumber(self.bytes[RANKS + RECORD * i]),
        )
    }

    fn cores(&self) -> [CoreNumber; 64]
        ensures { result ≡ packed core_number (each self.now.n (cell self.now.bytes.now 31 1)) }
    {
        each_task(
            self.n,
            CoreNumber(0),
            |i| CoreNumber(self.bytes[LASTS + RECORD * i]),
        )
    }

    // Left, done and dropped: the place is that of task 1.
    fn units(&self, from: usize) -> [Units; 64]
        requires { from ≤ 48 }
        ensures { result ≡ packed units_of (each self.now.n (cell self.now.bytes.now from 8)) }
    {
        each_task(
            self.n,
            Units(0),
            |i| Units(read_bytes(self.bytes, from + RECORD * i, 8)),
        )
    }

    // Well formed or not.
    pub(crate) fn state(&self) -> State
        ensures { result ≡ pack (decoded self.now.bytes.now) }
    {
        let bytes = self.bytes;
        State {
            table: Table {
                m: Cores(u32::from(bytes[0])),
                n: Tasks(u32::from(bytes[1])),
                rows: self.rows(),
            },
            ranks: self.ranks(),
            clock: Slot(read_bytes(bytes, 2, 4) as u32),
            left: self.units(LEFTS),
            last: self.cores(),
            done: self.units(DONES),
            dropped: self.units(DROPS),
            moves: read_bytes(bytes, 6, 8),
            misses: read_bytes(bytes, 14, 8),
        }
    }
}
