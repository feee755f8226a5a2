//! Commands on memory.
use std::alloc::Global;
use std::sync::Wait;
use std::test::Fail;
use std::thread::Threads;
use sv_io::{MemSink, MemSource};
use sv_tool::{Words, top};

/// The ends of a command. A failing call is meant by its number, from 1; 0 is none.
#[derive(Clone, Copy, Debug)]
pub struct Ends {
    /// How many bytes the source gives at a time.
    pub piece: usize,
    pub failing_read: u32,
    /// How many bytes the sink takes at a time.
    pub step: usize,
    /// How many bytes the sink takes in all.
    pub room: usize,
    pub failing_write: u32,
}

/// Ends that fail at no call.
pub const SURE: Ends = Ends {
    piece: 4_096,
    failing_read: 0,
    step: 4_096,
    room: 1_048_576,
    failing_write: 0,
};

/// The status that the words end with on the document, and the bytes that were written.
pub fn answer<R: Threads + Wait + Sync>(
    rt: &R,
    alloc: Global,
    words: &str,
    document: &[u8],
    ends: Ends,
) -> Result<(u8, Vec<u8>), Fail> {
    let mut said = Words::new(alloc);
    for word in words.split(' ') {
        said.push(word)?;
    }
    let piece = ends.piece.max(1);
    let step = ends.step.max(1);
    let mut source = MemSource::new(alloc, document, piece, &[ends.failing_read])?;
    let mut sink = MemSink::new(alloc, ends.room, step, &[ends.failing_write])?;
    let status = top(rt, alloc, &said, &mut source, &mut sink);
    Ok((status, Vec::from_slice(alloc, sink.taken())?))
}

/// Whether the text is one line of a refusal.
pub fn is_refusal(text: &[u8]) -> bool {
    text.starts_with(b"refused ")
        && text.iter().filter(|byte| **byte == b'\n').count() == 1
        && text.ends_with(b"\n")
}

/// Appends a text so often.
pub fn put_often(bytes: &mut Vec<u8>, text: &str, count: usize) -> Result<(), Fail> {
    for _ in 0..count {
        bytes.extend_from_slice(text.as_bytes())?;
    }
    Ok(())
}

/// The texts behind each other.
pub fn joined(alloc: Global, texts: &[&[u8]]) -> Result<Vec<u8>, Fail> {
    let mut bytes = Vec::new(alloc);
    for text in texts {
        bytes.extend_from_slice(text)?;
    }
    Ok(bytes)
}
