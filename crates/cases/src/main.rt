// The worked cases A to G of the paper: for each its letter, and then frames `11` and `12`.
#![tactic(auto)]

use std::io;
use tables::table::Table;

fn show_verdict(rt: &HostRuntime, table: Table) -> io::Result<()> {
    let Ok(j) = verdicts::table::verdict(table) else {
        return rt.write_all(b"refused\n");
    };
    let mut out = [0u8; 15];
    verdicts::lines::write_verdict(&mut out, j.verdict, j.heavy, j.repeat.0);
    rt.write_all(&out)
}

fn show_order(rt: &HostRuntime, table: Table) -> io::Result<()> {
    let Ok(tasks) = verdicts::table::priority(table) else {
        return rt.write_all(b"refused\n");
    };
    let ranks = verdicts::table::plain(tasks);
    let n = tables::repeat::rows_of(table.n);
    let end = 2 * n + 3;
    let mut out = [0u8; 131];
    verdicts::lines::write_order(&mut out, &ranks[..n]);
    rt.write_all(&out[..end])
}

fn show(rt: &HostRuntime, letter: &[u8], m: u32, rows: &[[u32; 2]]) -> io::Result<()> {
    rt.write_all(letter)?;
    let Ok(table) = tables::list::take_list(m, rows) else {
        return rt.write_all(b"refused\n");
    };
    show_verdict(rt, table)?;
    show_order(rt, table)
}

fn main(rt: HostRuntime) -> io::Result<()> {
    show(
        &rt,
        b"A\n",
        3,
        &[[1, 7], [2, 10], [9, 20], [11, 22], [2, 25]],
    )?;
    show(&rt, b"B\n", 2, &[[1, 2], [1, 2]])?;
    show(&rt, b"C\n", 2, &[[1, 2], [1, 2], [1, 100]])?;
    show(&rt, b"D\n", 3, &[[3, 7], [3, 7], [3, 7]])?;
    show(&rt, b"E\n", 3, &[[3, 7], [3, 7], [4, 7]])?;
    show(&rt, b"F\n", 3, &[[1, 10], [1, 10], [1, 10], [10, 11]])?;
    show(&rt, b"G\n", 2, &[[3, 5], [1, 5], [1, 5]])
}
