// Of the tasks with left work the first m in priority order are chosen, or all if fewer.
ghost use Rattle.std.specs.Prelude.{◌≡◌, ◌≤◌, length, ltb};
ghost use Rattle.laws.specs.Lists.{at};
ghost use Rattle.engine.specs.Choice.{Named, Chose};

fn pending(left: &[u32], i: u8) -> bool
    requires { (1 ≤ i) × (i ≤ length left.now) }
    ensures { result ≡ ltb 0 (at left.now i) }
{
    0 < left[usize::from(i - 1)]
}

// As many as `chosen` has places: the first of them are filled, and their number is returned. Each task is put down and stays if
// it waits: which tasks do changes from slot to slot, and a branch on it would be guessed wrong too often.
// The number and not the part is returned: a part that comes out of `chosen` is no plainer to say of than `chosen` and a number.
pub fn choose(ranks: &[u8], left: &[u32], chosen: &mut [u8]) -> usize
    requires { Named (length left.now) ranks.now }
    ensures { Chose ranks.now left.now chosen.old chosen.new result }
{
    let mut k = 0;
    for &i in ranks {
        if k == chosen.len() {
            return k;
        }
        chosen[k] = i;
        k += usize::from(pending(left, i));
    }
    k
}
