//! Commands on documents, by the cases of standard input. The command of a case is the status that is wanted and the
//! words; its lines are the text that is wanted. Standard output tells how many cases there are, and which of them come
//! out otherwise.
#![tactic(auto)]

use std::alloc::Global;
use std::io::{self, ErrorKind};
use sv_cases::{Case, Cases};
use sv_io::{MemSource, StdSink, SureSink, write_all};
use sv_tool::{Words, plain};
use sv_value::{NoMemory, put_int};

/// The most bytes of what a command writes here.
const MOST_WRITTEN: usize = 4_096;

/// How many bytes the source gives at a time.
const STEP: usize = 64;

/// What the command writes, behind its status where another one is wanted.
fn found(alloc: Global, case: &Case) -> Result<Vec<u8>, NoMemory> {
    let mut words = Words::new(alloc);
    for word in case.command.split(' ').skip(1) {
        words.push(word)?;
    }
    let mut source = MemSource::new(alloc, &case.document, STEP, &[])?;
    let mut sink = SureSink::new(alloc, MOST_WRITTEN)?;
    let status = plain(alloc, &words, &mut source, &mut sink);
    let mut found = Vec::new(alloc);
    put_int(&mut found, status as i128)?;
    if case.command.split(' ').next().map(str::as_bytes) == Some(found.as_slice()) {
        found.clear();
    }
    found.extend_from_slice(sink.taken())?;
    Ok(found)
}

fn out_of_memory(_none: NoMemory) -> io::Error {
    io::Error::from(ErrorKind::OutOfMemory)
}

fn main(rt: HostRuntime) -> io::Result<()> {
    let alloc = rt.alloc();
    let mut cases = Cases::new(alloc);
    for line in rt.lines(alloc) {
        if let Some(case) = cases.take(line?.as_str()).map_err(out_of_memory)? {
            let found = found(alloc, &case).map_err(out_of_memory)?;
            cases.judge(&case, &found).map_err(out_of_memory)?;
        }
    }
    let told = cases.told().map_err(out_of_memory)?;
    match write_all(&mut StdSink::new(io::writer(&rt)), &told) {
        Ok(()) => Ok(()),
        Err(_) => Err(io::Error::from(ErrorKind::Other)),
    }
}
