// Lowercase hexadecimal digits and big-endian fields of them: read out of a text, and written into one.
#![tactic(auto)]

ghost use Rattle.std.specs.Prelude.{◌≡◌, cond, ◌+◌, ◌≤◌, ◌<◌, ltb, length, take, drop};
ghost use Rattle.laws.specs.Digits.{digit as digit_of, digit_value, value, field};
ghost use Rattle.rules.specs.Answers.{lay};
ghost use Rattle.rules.specs.Results.{option};
ghost use Rattle.digits.specs.Fields.{Within};

pub mod places;

use crate::places::write_places;

// How far a digit lies above the number that it stands for: a value and no branch where digits are written.
fn above(v: u8) -> u8
    ensures { result ≡ cond (ltb v 10) 48 87 }
{
    if v < 10 { 48 } else { 87 }
}

// The digit for a number below 16.
#[tactic(auto, unfolding(laws::specs::Digits::digit))]
pub fn digit(v: u8) -> u8
    requires { v < 16 }
    ensures { result ≡ digit_of v }
{
    v + above(v)
}

// The number that a byte stands for, if it is a digit.
#[tactic(auto, unfolding(laws::specs::Digits::digit_value))]
pub fn digit_value(b: u8) -> Option<u8>
    ensures { result ≡ option (λ v. v) (digit_value b) }
{
    match b {
        b'0'..=b'9' => Some(b - b'0'),
        b'a'..=b'f' => Some(b - b'a' + 10),
        _ => None,
    }
}

// The number that up to 16 digits stand for, if they are digits.
fn read_digits(s: &[u8]) -> Option<u64>
    requires { length s.now ≤ 16 }
    ensures { result ≡ option (λ v. v) (value s.now) }
{
    let mut v: u64 = 0;
    for b in s {
        v = v * 16 + u64::from(digit_value(*b)?);
    }
    Some(v)
}

// The number that the `width` digits of s from a place on stand for, if they are digits.
pub fn read_field(s: &[u8], from: usize, width: usize) -> Option<u64>
    requires { Within s.now from width }
    ensures { result ≡ option (λ v. v) (value (take width (drop from s.now))) }
{
    read_digits(&s[from..from + width])
}

// The `width` bytes from a place on become v in so many digits; no other byte differs.
// Buffer, place, width and number are four parameters here, in `write_places` and in `stored`'s `write_bytes`: a struct of them would be
// made and taken apart in one line.
pub fn write_field(out: &mut [u8], at: usize, width: usize, v: u64)
    requires { at + width ≤ length out.old }
    ensures { out.new ≡ lay out.old at (field width v) }
{
    write_places::<16, _>(out, at, width, v, digit);
}
