// The program: a table file on standard input, its verdict, order, slots and totals on standard output.
#![tactic(auto)]

ghost use Rattle.std.specs.Prelude.{◌≤◌, ◌<◌, length, take, IfOk};
ghost use Rattle.std.specs.Io.KnownBytes.{Consumes, IsAtEnd};
ghost use Rattle.reports.specs.Reports.{text_max, Printed};

use reports::report::INPUT_MAX;
use std::io;
use std::io::Read;

// No text is longer.
const TEXT_MAX: usize = 323781;

// The text for an input in a buffer that is long enough for any, and how many bytes it has: nothing is refused.
fn text(input: &[u8], out: &mut [u8]) -> usize
    requires { text_max ≤ length out.old }
    ensures { Printed input.now out.old result out.new }
{
    reports::report::report(input, out, 0).unwrap()
}

// Reads until the buffer is full or the input ends, and returns how many bytes stand at its front now: those that the reader gave.
// Where a read fails, what stands in the buffer is left open.
fn read_full<R: Read>(reader: &mut R, buf: &mut [u8]) -> io::Result<usize>
    ensures bound { IfOk result (λ n. n ≤ length buf.new) }
    ensures bytes { IfOk result (λ n. Consumes (R.remaining reader.old) (R.remaining reader.new) (take n buf.new)) }
    ensures end { IfOk result (λ n. n < length buf.new → IsAtEnd (R.remaining reader.new)) }
{
    let mut done = 0;
    // No `for` fits: how far a read gets is the reader's.
    while done < buf.len() {
        let n = reader.read(&mut buf[done..])?;
        if n == 0 {
            break;
        }
        done += n;
    }
    Ok(done)
}

fn main(rt: HostRuntime) -> io::Result<()> {
    let mut input = [0u8; INPUT_MAX];
    let mut out = [0u8; TEXT_MAX];
    let read = read_full(&mut rt.stdin(), &mut input)?;
    let size = text(&input[..read], &mut out);
    rt.write_all(&out[..size])
}
