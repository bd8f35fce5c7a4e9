// An answer of the library as a number, and what was asked for.
ghost use Rattle.std.specs.Prelude.{◌≡◌};
ghost use Rattle.capi.specs.Calls.{reply};
ghost use Rattle.capi.specs.Answers.{numbered};

use rules::refusal::Refusal;

// 0 where the answer has a value, which goes into its place; else the number of the refusal, and what stood in the place stays.
pub(crate) fn settle<T: Copy>(answer: Result<T, Refusal>, place: &mut T) -> u32
    ensures { reply result place.new ≡ numbered place.old answer }
{
    match answer {
        Ok(value) => {
            *place = value;
            0
        }
        Err(r) => u32::from(u8::from(r)),
    }
}
