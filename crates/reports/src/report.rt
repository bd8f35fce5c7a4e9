// The program's text for any input, from a place of a lent buffer on.
ghost use Rattle.std.specs.Prelude.{◌≡◌, ◌++◌, length, take, drop};
ghost use Rattle.rules.specs.Limits.{input_max};
ghost use Rattle.rules.specs.Files.{read_file};
ghost use Rattle.tables.specs.Views.{table_answer};
ghost use Rattle.tables.specs.Writes.{made};
ghost use Rattle.reports.specs.Reports.{report_of, reply_to, Answered, ReplyRoom};

use crate::table::{report_length, write_report};
use frames::refusal::write_refusal;
use rules::refusal::{Refusal, Refused};
use rules::room::room;
use tables::table::Table;

// What is read at most, in bytes.
pub const INPUT_MAX: usize = 2048;

const REFUSAL_LENGTH: usize = 9;

// The answer to the file that an input is, or to its start where it is too long.
fn read_input(input: &[u8]) -> Result<Table, Refused>
    ensures { result ≡ table_answer (read_file (take input_max input.now)) }
{
    tables::file::read_file(&input[..INPUT_MAX.min(input.len())])
}

// How many bytes the text for an answer takes.
fn reply_length(answer: Result<Table, Refused>) -> usize
    requires { Answered answer }
    ensures { result ≡ length (reply_to answer) }
{
    match answer {
        Ok(table) => report_length(table),
        Err(_) => REFUSAL_LENGTH,
    }
}

// The text for an answer at the front of the lent part; nothing after it differs.
fn write_reply(out: &mut [u8], answer: Result<Table, Refused>)
    requires { ReplyRoom answer out.old }
    ensures { out.new ≡ reply_to answer ++ drop (length (reply_to answer)) out.old }
{
    match answer {
        Ok(table) => write_report(out, table),
        Err(refused) => write_refusal(out, u8::from(refused.refusal), refused.line),
    }
}

// The text for an input, from a place of the buffer on. No other byte differs, and where there is no room for it none at all: refusal 7,
// the only one. How many bytes were written is returned.
pub fn report(input: &[u8], out: &mut [u8], at: usize) -> Result<usize, Refusal>
    ensures { made result out.new ≡ report_of input.now out.old at }
{
    let answer = read_input(input);
    let size = reply_length(answer);
    room(out.len(), at, size)?;
    write_reply(&mut out[at..], answer);
    Ok(size)
}
