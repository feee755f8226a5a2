//! Runs beside the forms of their paths, by the cases of standard input. A case's document has tables, transactions,
//! initial rows and the head of a replay; its command is `label` or `forms` and the call of a
//! transaction. The call is run, and must be done. For each
//! instance of the run a plain program asks on its tape: whether its unit has one path with its choices, whether the
//! path's facts hold, whether the path's changes in forms come to those of the instance, and which of their atoms is the
//! first that isn't met. A label's line is the label that these atoms give, and one more where the run's changes have
//! another one. With `forms` a line for each instance follows: its unit, its choices, the facts, the changes and the
//! number of symbols. Where something doesn't agree, the line says what. Standard output tells how many cases there are,
//! and which of them come out otherwise.
#![tactic(auto)]

mod plain;
mod runs;
mod shapes;
mod texts;
mod trials;

use std::io::{self, ErrorKind};
use sv_cases::Cases;
use sv_io::{StdSink, write_all};
use sv_value::NoMemory;

fn out_of_memory(_none: NoMemory) -> io::Error {
    io::Error::from(ErrorKind::OutOfMemory)
}

fn main(rt: HostRuntime) -> io::Result<()> {
    let alloc = rt.alloc();
    let mut cases = Cases::new(alloc);
    for line in rt.lines(alloc) {
        if let Some(case) = cases.take(line?.as_str()).map_err(out_of_memory)? {
            let found = trials::found(alloc, &case).map_err(out_of_memory)?;
            cases.judge(&case, &found).map_err(out_of_memory)?;
        }
    }
    let told = cases.told().map_err(out_of_memory)?;
    match write_all(&mut StdSink::new(io::writer(&rt)), &told) {
        Ok(()) => Ok(()),
        Err(_) => Err(io::Error::from(ErrorKind::Other)),
    }
}
