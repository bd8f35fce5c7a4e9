// The two digits of every byte, one after the other. A run makes them once, and its frames look their numbers up: arithmetic on every
// digit of every frame would be a good part of a slot's time.
ghost use Rattle.std.specs.Prelude.{◌≡◌};
ghost use Rattle.frames.specs.Pairs.{names as every_byte};

use crate::pairs::write_pairs;

pub fn names() -> [u8; 512]
    ensures { result ≡ every_byte }
{
    let mut bytes = [0u8; 512];
    let every: [u8; 256] = std::array::from_fn(|i| i as u8);
    write_pairs(&mut bytes, &every);
    bytes
}
