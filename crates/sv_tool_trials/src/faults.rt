use std::alloc::Global;
use std::sync::Wait;
use std::test::Fail;
use std::thread::Threads;
use sv_io::{MemSink, MemSource};
use sv_tool::{Words, top};

/// A document of 229 bytes.
const DOCUMENT: &str = "@UOSET create table acc (id int, n int @NUMDELTA, primary key (id));
txn add(k: int, n: int) { update acc[k] set n = old.n + n; }
%% init acc(1, 10);
%% replay sites=2
ask 1 add(1, 5); deliver 2 blue 1 0; show 1 acc; show 2 acc;
";

/// What its replay writes: 81 bytes.
const TEXT: &str = "answer 1 0 ok() blue 1 0
applied
show 1 acc 1
row 1 15
show 2 acc 1
row 1 15
end
";

/// The status of a replay of the document, and the bytes that were written, where the calls of these numbers fail.
fn replay<R: Threads + Wait + Sync>(
    rt: &R,
    alloc: Global,
    document: &[u8],
    failing_read: u32,
    failing_write: u32,
) -> Result<(u8, Vec<u8>), Fail> {
    let mut words = Words::new(alloc);
    words.push("replay")?;
    let mut source = MemSource::new(alloc, document, 64, &[failing_read])?;
    let mut sink = MemSink::new(alloc, 4_096, 40, &[failing_write])?;
    let status = top(rt, alloc, &words, &mut source, &mut sink);
    Ok((status, Vec::from_slice(alloc, sink.taken())?))
}

/// Four pieces of 64 bytes are read, and then the end.
#[test]
fn a_failing_source_writes_nothing(rt: HostRuntime) -> Result<(), Fail> {
    for (call, want) in [(1, 3), (2, 3), (3, 3), (4, 3), (5, 3), (6, 0)] {
        let (status, written) = replay(&rt, rt.alloc(), DOCUMENT.as_bytes(), call, 0)?;
        assert_eq!(rt; status, want, "at {call}");
        assert_eq!(rt; written.is_empty(), want == 3, "at {call}");
    }
    Ok(())
}

/// Two pieces of 40 bytes are written, and one of 1.
#[test]
fn a_failing_sink_took_a_front(rt: HostRuntime) -> Result<(), Fail> {
    for (call, want, count) in [(1, 4, 0), (2, 4, 40), (3, 4, 80), (4, 0, 81)] {
        let (status, written) = replay(&rt, rt.alloc(), DOCUMENT.as_bytes(), 0, call)?;
        assert_eq!(rt; status, want, "at {call}");
        assert_eq!(rt; written.len(), count, "at {call}");
        assert!(rt;
            TEXT.as_bytes().starts_with(written.as_slice()),
            "at {call}"
        );
    }
    Ok(())
}

#[test]
fn a_document_has_1048576_bytes_at_most(rt: HostRuntime) -> Result<(), Fail> {
    for (count, status, text) in [
        (1_048_576usize, 0, TEXT),
        (1_048_577, 1, "refused 1:1 10\n"),
    ] {
        let mut document = vec![in rt.alloc(); b' '; count]?;
        for (byte, of) in document.iter_mut().zip(DOCUMENT.as_bytes()) {
            *byte = *of;
        }
        let (found, written) = replay(&rt, rt.alloc(), &document, 0, 0)?;
        assert_eq!(rt; found, status, "with {count}");
        assert_eq!(rt; written.as_slice(), text.as_bytes(), "with {count}");
    }
    Ok(())
}
