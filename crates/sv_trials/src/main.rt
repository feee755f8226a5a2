//! Runs, verdicts and labels beside plain programs, by the cases of standard input. A case's document has tables,
//! transactions, initial rows and the head of a replay; its command is `run`, `verdict` or `label` and the call of
//! a transaction, with `from NUMBER` in front where the run draws its keys from that number on. A run's line is
//! what the run comes to; a verdict's line is which invariant is broken first after its changes, and at which key;
//! a label's line is whether its changes are none, blue, or red, with the first threat. With `within NUMBER` in
//! front of `label` the plain program judges them too, by the rows whose numbers lie between minus this number and
//! this number. Where the plain program and the call on a store, or on a store whose reads are noted, come to
//! different things, each has a line. Standard output tells how many cases there are, and which of them come out
//! otherwise.
#![tactic(auto)]

mod halts;
mod plain;
mod plain_changes;
mod plain_labels;
mod plain_needs;
mod plain_rows;
mod plain_states;
mod plain_values;
mod plain_verdicts;
mod texts;
mod trials;

use std::io::{self, ErrorKind};
use sv_cases::Cases;
use sv_io::{StdSink, write_all};
use sv_value::NoMemory;

fn out_of_memory(_none: NoMemory) -> io::Error {
    io::Error::from(ErrorKind::OutOfMemory)
}

fn main(rt: HostRuntime) -> io::Result<()> {
    let alloc = rt.alloc();
    let mut cases = Cases::new(alloc);
    for line in rt.lines(alloc) {
        if let Some(case) = cases.take(line?.as_str()).map_err(out_of_memory)? {
            let found = trials::found(alloc, &case).map_err(out_of_memory)?;
            cases.judge(&case, &found).map_err(out_of_memory)?;
        }
    }
    let told = cases.told().map_err(out_of_memory)?;
    match write_all(&mut StdSink::new(io::writer(&rt)), &told) {
        Ok(()) => Ok(()),
        Err(_) => Err(io::Error::from(ErrorKind::Other)),
    }
}
