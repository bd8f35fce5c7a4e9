ghost use Rattle.std.specs.Prelude.{◌≡◌};
ghost use Rattle.rules.specs.Results.{room_reply};

use crate::refusal::Refusal;

// Room in a buffer of a length for so many bytes from a place on, or 7: the part from there on is too short, or the place lies past
// the buffer's end. No sum is made that could wrap.
// A buffer and a place are two parameters wherever a text is written, since document 01 names that form.
pub fn room(length: usize, place: usize, bytes: usize) -> Result<(), Refusal>
    ensures { result ≡ room_reply length place bytes }
{
    if place <= length && bytes <= length - place {
        Ok(())
    } else {
        Err(Refusal::NoRoom)
    }
}
