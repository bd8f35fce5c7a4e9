// The digits of every byte, as they are lent to what looks them up.
ghost use Rattle.std.specs.Prelude.{◌≡◌, ◌+◌, ◌≤◌, length};
ghost use Rattle.laws.specs.Digits.{field};
ghost use Rattle.rules.specs.Answers.{lay};
ghost use Rattle.frames.specs.Pairs.{names as every_byte};

#[derive(Clone, Copy)]
pub struct Names<'a> {
    pub bytes: &'a [u8],
    pub ghost are: { bytes.now ≡ every_byte },
}

impl Names<'_> {
    // The two bytes from a place on become the last two digits of v; no other byte differs.
    #[tactic(auto, using(crate::proofs::Lookup::names_long))]
    pub fn write(&self, out: &mut [u8], at: usize, v: u32)
        requires { at + 2 ≤ length out.old }
        ensures { out.new ≡ lay out.old at (field 2 v) }
    {
        let from = 2 * (v % 256) as usize;
        out[at] = self.bytes[from];
        out[at + 1] = self.bytes[from + 1];
    }
}
