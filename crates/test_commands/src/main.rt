//! Rows of whole commands: arguments, files, rules that a source breaks, reports, several clients, and
//! `check`; the language without records; records, locks and sequences, and banks. `stdin` has the
//! rows, and `stdout` each row with its answer; what a row says is in `test_runs`. The answers are
//! read off the description of the language and of the program (`docs/language.md`, `docs/formats.md`,
//! `docs/outside.md`), never off the program.
#![tactic(auto)]

use std::io;
use test_runs::Lines;

fn main(rt: HostRuntime) -> io::Result<()> {
    let mut lines = Lines::new(rt.alloc());
    for line in rt.lines(rt.alloc()) {
        let row = line?;
        let answered = lines.answered(&rt, row.as_str())?;
        println!(rt; "{answered}")?;
    }
    Ok(())
}
