// Big-endian numbers: read out of a byte string, and written into one.
ghost use Rattle.std.specs.Prelude.{◌≡◌, ◌++◌, ◌+◌, ◌≤◌, length, drop, map};
ghost use Rattle.laws.specs.Lists.{sum};
ghost use Rattle.rules.specs.Answers.{lay};
ghost use Rattle.stored.specs.Layout.{bytes_of, written};
ghost use Rattle.stored.specs.Places.{Within, Read};

use digits::places::write_places;

// The number that the `width` bytes of s from a place on stand for.
pub fn read_bytes(s: &[u8], from: usize, width: usize) -> u64
    requires { Within s.now from width }
    ensures { Read s.now from width result }
{
    let mut bytes = [0; 8];
    bytes[8 - width..].copy_from_slice(&s[from..from + width]);
    u64::from_be_bytes(bytes)
}

// The `width` bytes from a place on become v; no other byte differs.
pub fn write_bytes(out: &mut [u8], at: usize, width: usize, v: u64)
    requires { at + width ≤ length out.old }
    ensures { out.new ≡ lay out.old at (bytes_of width v) }
{
    // The contract is for any width, and the library's `to_be_bytes` gives eight bytes.
    write_places::<256, _>(out, at, width, v, |d| d);
}

// Numbers, each in so many bytes, one right after the other at the front of the lent part; nothing after them differs.
pub fn write_numbers(out: &mut [u8], numbers: &[(usize, u64)])
    requires { sum (map (λ f. f.0) numbers.now) ≤ length out.old }
    ensures { out.new ≡ written (map (λ f. f.0) numbers.now) (map (λ f. f.1) numbers.now) ++ drop (sum (map (λ f. f.0) numbers.now)) out.old }
{
    let mut at = 0;
    for &(width, v) in numbers {
        write_bytes(out, at, width, v);
        at += width;
    }
}
