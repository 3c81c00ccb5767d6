//! Statements of SQL from standard input, a line each, read and printed: of each line the statement is told as it is
//! printed, read again and printed again, or else the place at which the line is no statement.
#![tactic(auto)]

mod told;

use std::io::{self, BufRead, BufWriter, Write};

fn main(rt: HostRuntime) -> anyhow::Result<()> {
    let mut out = BufWriter::new(rt.alloc(), io::writer(&rt))?;
    for line in rt.reader().split(rt.alloc(), b'\n') {
        let line = line?;
        let text = told::told(rt.alloc(), line.as_slice())?;
        out.write_all(text.bytes())?;
        out.write_all(b"\n")?;
    }
    out.flush()?;
    Ok(())
}
