// Tables: opened as a stored state, from a file or a list of rows, and written out as a file.
ghost use Rattle.std.specs.Prelude.{◌≡◌};
ghost use Rattle.tables.specs.Lists.{list_rows};
ghost use Rattle.tables.specs.Writes.{made};
ghost use Rattle.capi.specs.Calls.{reply, replied, filled, open_file, open_list, write_rows, read, opened};
ghost use Rattle.capi.specs.Answers.{line_in, Startable, fresh_of};

use crate::answer::settle;
use machine::fresh::fresh;
use rules::refusal::{Refusal, Refused};
use stored::store::store;
use tables::file::read_file;
use tables::list::take_list;
use tables::table::Table;
use tables::write::write_list;

// The line of a refusal, 0 where a table is taken.
fn line_of(taken: Result<Table, Refused>) -> u32
    ensures { result ≡ line_in taken }
{
    match taken {
        Ok(_) => 0,
        Err(refused) => refused.line,
    }
}

// The fresh state of a table that was taken, at the front of the buffer.
fn open_table(taken: Result<Table, Refused>, state: &mut [u8]) -> Result<usize, Refusal>
    requires { Startable taken }
    ensures { made result state.new ≡ fresh_of taken state.old }
{
    store(fresh(taken?), state, 0)
}

// Opens a table file: its fresh state becomes the front of `state`, and `size` the number of its bytes. `line` is the line of a
// refusal of the file, else 0.
pub fn zq_open(file: &[u8], state: &mut [u8], size: &mut usize, line: &mut u32) -> u32
    ensures { read (reply result (filled state.new size.new)) line.new ≡ opened (filled state.old size.old) (open_file file.now state.old) }
{
    let taken = read_file(file);
    *line = line_of(taken);
    settle(open_table(taken, state), size)
}

// Opens a list of rows, each a C and a T, on m cores.
pub fn zq_open_list(m: u32, rows: &[[u32; 2]], state: &mut [u8], size: &mut usize) -> u32
    ensures { reply result (filled state.new size.new) ≡ replied (filled state.old size.old) (open_list m (list_rows rows.now) state.old) }
{
    settle(open_table(take_list(m, rows), state), size)
}

// Writes a list of rows out as a file, from place `at` on.
pub fn zq_write_list(m: u32, rows: &[[u32; 2]], out: &mut [u8], at: usize, size: &mut usize) -> u32
    ensures { reply result (filled out.new size.new) ≡ replied (filled out.old size.old) (write_rows m (list_rows rows.now) out.old at) }
{
    settle(write_list(m, rows, out, at), size)
}
