// Numbers written in places to a base, the highest first.
ghost use Rattle.std.specs.Prelude.{◌≡◌, ℕ, ◌+◌, ◌≤◌, ◌<◌, List, length};
ghost use Rattle.laws.specs.Places.{places};
ghost use Rattle.rules.specs.Answers.{lay};
ghost use Rattle.digits.specs.Signs.{Signs, Allowed};

// The `width` bytes from a place on become v in so many places to a base, each as its sign; no other byte differs.
pub fn write_places<const BASE: u64, F: Fn(u8) -> u8>(
    out: &mut [u8],
    at: usize,
    width: usize,
    v: u64,
    sign: F,
)
    requires low { 0 < BASE }
    requires high { BASE ≤ 256 }
    requires room { at + width ≤ length out.old }
    requires callable { (d : ℕ) → d < BASE → F.pre sign d }
    ensures computed { (f : ℕ → ℕ) → Signs BASE (F.post sign) f → out.new ≡ lay out.old at (places BASE f width v) }
    ensures allowed { (signs : List ℕ) × Allowed BASE (F.post sign) width v signs × (out.new ≡ lay out.old at signs) }
{
    let tail = &mut out[at..];
    let mut rest = v;
    for i in (0..width).rev() {
        tail[i] = sign((rest % BASE) as u8);
        rest /= BASE;
    }
}
