//! Where the bytes of a program come from and where they go, with the cause of each failure.
#![tactic(auto)]

mod calls;
mod faults;
mod kept;
mod memory_sinks;
mod memory_sources;
mod reading;
mod sinks;
mod sources;
mod std_sinks;
mod std_sources;
mod unread;
mod writing;

pub use faults::Failed;
pub use memory_sinks::{MemSink, SureSink};
pub use memory_sources::{MemSource, SureSource};
pub use reading::{ReadError, read_all};
pub use sinks::Sink;
pub use sources::Source;
pub use std_sinks::StdSink;
pub use std_sources::StdSource;
pub use writing::write_all;
