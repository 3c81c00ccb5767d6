//! Statements of SQL from standard input, a line each, over tables in memory that begin empty: of line n the answer is told as
//! `n: ..` with its further lines as `n| ..`. A line of blanks, or one that begins with two dashes, is told nothing.
#![tactic(auto)]

mod told;

use dl_base::Memory;
use run_script::is_quiet;
use sql_table::Tables;
use std::io::{self, BufRead, BufWriter, Write};

fn main(rt: HostRuntime) -> anyhow::Result<()> {
    let mut out = BufWriter::new(rt.alloc(), io::writer(&rt))?;
    let mut tables = Tables::empty(rt.alloc());
    let mut context = told::context(rt.alloc())?;
    let mut number = 0u64;
    for line in rt.reader().split(rt.alloc(), b'\n') {
        let line = line?;
        number = number.wrapping_add(1);
        if is_quiet(line.as_slice()) {
            continue;
        }
        context.tx = context.tx.wrapping_add(1);
        let text = told::told(rt.alloc(), &mut tables, &context, number, line.as_slice())?;
        out.write_all(text.bytes())?;
    }
    out.flush()?;
    Ok(())
}
