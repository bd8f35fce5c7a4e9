// The header's numbers: their tests, the same in a file and in a list, and their line in a file.
ghost use Rattle.std.specs.Prelude.{◌≡◌};
ghost use Rattle.rules.specs.Files.{read_header};
ghost use Rattle.tables.specs.Headers.{header_answer, header_read, test_header};

use crate::frame;
use rules::kinds::{Cores, Kind, Tasks};
use rules::refusal::{Refusal, Refused};

// m and n within their bounds.
#[derive(Clone, Copy)]
pub struct Header {
    pub m: Cores,
    pub n: Tasks,
}

// The tests of m, then of n. A count past 32 bits is outside its bounds too.
#[tactic(auto, unfolding(crate::specs::Headers::test_header, rules::specs::Tables::header_tests))]
pub fn test_header(m: u32, n: usize, line: u32) -> Result<Header, Refused>
    ensures { result ≡ header_answer (test_header m n line) }
{
    let m = Cores::new(m).ok_or(Refusal::BadCores.at(line))?;
    let n = u32::try_from(n)
        .ok()
        .and_then(Tasks::new)
        .ok_or(Refusal::BadTasks.at(line))?;
    Ok(Header { m, n })
}

// The header that a text begins with.
pub(crate) fn read_header(s: &[u8]) -> Result<Header, Refused>
    ensures { result ≡ header_read (read_header s.now) }
{
    let Some((m, n)) = frame::HEADER.read(s) else {
        return Err(Refusal::BadLine.at(1));
    };
    test_header(m, n as usize, 1)
}
