// Placing: in priority order, each chosen task whose last core is free takes it; then, in priority order, each other takes the
// lowest free core. Cores are counted from 1; the entry of `cores` for core k is at k - 1, and 0 where the core is idle.
ghost use Rattle.std.specs.Prelude.{◌≡◌, ◌≤◌, length};
ghost use Rattle.laws.specs.Lists.{at};
ghost use Rattle.rules.specs.Slots.{free, seat};
ghost use Rattle.engine.specs.Placing.{moves_to, Remembered, Idle, Placing, Keeping, Kept, Filling, Filled, Placed};
ghost use Rattle.engine.specs.Work.{Working, Worked};

use crate::work::serve;

// The core that task i last ran on, 0 where it has none.
fn last_core(last: &[u8], i: u8) -> u8
    requires { (1 ≤ i) × (i ≤ length last.now) }
    ensures { result ≡ at last.now i }
{
    last[usize::from(i - 1)]
}

fn is_free(cores: &[u8], k: u8) -> bool
    requires { k ≤ length cores.now }
    ensures { result ≡ free cores.now k }
{
    0 < k && cores[usize::from(k - 1)] == 0
}

fn take_core(cores: &mut [u8], k: u8, i: u8)
    requires { (1 ≤ k) × (k ≤ length cores.old) }
    ensures { cores.new ≡ seat cores.old k i }
{
    cores[usize::from(k - 1)] = i;
}

// Each chosen task whose last core is free takes it. The others are put into `others`, and their number is returned. The same walk
// does the tasks' work: how many are chosen changes from slot to slot, and the end of a second walk would be guessed wrong again.
fn keep(
    chosen: &[u8],
    last: &[u8],
    cores: &mut [u8],
    others: &mut [u8],
    left: &mut [u32],
    done: &mut [u32],
) -> usize
    requires { Keeping chosen.now last.now cores.old others.old × Working chosen.now left.old done.old }
    ensures { Kept chosen.now last.now cores.old others.old cores.new others.new result × Worked chosen.now left.old done.old left.new done.new }
{
    let mut n = 0;
    for &i in chosen {
        let k = last_core(last, i);
        serve(i, left, done);
        if is_free(cores, k) {
            take_core(cores, k, i);
        } else {
            others[n] = i;
            n += 1;
        }
    }
    n
}

// The task ran before, on another core: a first run is no move.
fn moves_to(core: u8, last: u8) -> bool
    ensures { result ≡ moves_to core last }
{
    0 < last && core != last
}

// Task i remembers the core that it takes. Its move is returned.
fn remember(last: &mut [u8], i: u8, core: u8) -> u32
    requires { (1 ≤ i) × (i ≤ length last.old) }
    ensures { Remembered i core last.old last.new result }
{
    let j = usize::from(i - 1);
    let before = last[j];
    last[j] = core;
    u32::from(moves_to(core, before))
}

// Each of the others takes the lowest free core: a core that was passed is not free any more. The number of moves is returned.
// One walk over the cores: a walk over the others with a search for each one's core took longer, since the search became a call.
fn fill(others: &[u8], last: &mut [u8], cores: &mut [u8]) -> u32
    requires { Filling others.now last.old cores.old }
    ensures { Filled others.now last.old cores.old last.new cores.new result }
{
    let mut moves = 0;
    let mut j = 0;
    for k in 0..cores.len() {
        if j == others.len() {
            return moves;
        }
        if cores[k] == 0 {
            let i = others[j];
            cores[k] = i;
            moves += remember(last, i, (k + 1) as u8);
            j += 1;
        }
    }
    moves
}

// `chosen` has the chosen tasks, highest priority first; `last` has each task's last core; no core holds a task yet. Each chosen task
// does its unit of work. The number of moves is returned.
pub fn place(
    chosen: &[u8],
    last: &mut [u8],
    cores: &mut [u8],
    left: &mut [u32],
    done: &mut [u32],
) -> u32
    requires { Placing chosen.now last.old cores.old × Idle cores.old × Working chosen.now left.old done.old }
    ensures { Placed chosen.now last.old cores.old last.new cores.new result × Worked chosen.now left.old done.old left.new done.new }
{
    let mut others = [0u8; 32];
    let m = cores.len();
    let n = keep(chosen, last, cores, &mut others[..m], left, done);
    fill(&others[..n], last, cores)
}
