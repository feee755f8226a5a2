//! Reading and writing whole: faults at each call, the limit, and how much is asked for.
ghost use Rattle.std.specs.Prelude.{None};

use std::io::{self, ErrorKind, Read};
use std::test::Fail;
use sv_io::{
    Failed, MemSink, MemSource, ReadError, Source, StdSink, StdSource, SureSink, SureSource,
    read_all, write_all,
};

/// Gives zeros without end, at most `step` a call, and looks at the sizes that are asked for.
#[derive(Drop)]
struct Recorder {
    step: usize,
    came: usize,
    widest: usize,
    within: bool,
}

impl Source for Recorder {
    ghost left = { λ _. None };

    ghost faults = { λ _. 0 };

    fn read(&mut self, buf: &mut [u8]) -> Result<usize, Failed> {
        let asked = buf.len();
        self.widest = self.widest.max(asked);
        self.within = self.within && asked <= 1_048_577usize.saturating_sub(self.came);
        let count = asked.min(self.step);
        self.came = self.came.saturating_add(count);
        Ok(count)
    }
}

/// A reader that fails at once.
#[derive(Drop)]
struct Broken;

impl Read for Broken {
    fn read(&mut self, _buf: &mut [u8]) -> io::Result<usize> {
        Err(io::Error::from(ErrorKind::Other))
    }
}

#[test]
fn sources_fail_at_their_calls(rt: HostRuntime) -> Result<(), Fail> {
    for call in 1..6u32 {
        let mut source = MemSource::new(rt.alloc(), b"abcde", 2, &[call])?;
        match read_all(rt.alloc(), &mut source) {
            Ok(bytes) => {
                assert_eq!(rt; call, 5);
                assert_eq!(rt; bytes.as_slice(), b"abcde".as_slice());
            }
            Err(error) => {
                assert!(rt; call < 5, "at {call}");
                assert_eq!(rt; error, ReadError::Failed, "at {call}");
            }
        }
    }
    Ok(())
}

#[test]
fn sinks_fail_at_their_calls_and_when_full(rt: HostRuntime) -> Result<(), Fail> {
    let cases: [(usize, usize, u32, bool, &[u8]); 7] = [
        (9, 2, 1, false, b""),
        (9, 2, 2, false, b"ab"),
        (9, 2, 3, false, b"abcd"),
        (9, 2, 4, true, b"abcde"),
        (5, 4_096, 2, true, b"abcde"),
        (3, 2, 9, false, b"abc"),
        (0, 1, 9, false, b""),
    ];
    for (room, step, call, want, taken) in cases {
        let mut sink = MemSink::new(rt.alloc(), room, step, &[call])?;
        let done = write_all(&mut sink, b"abcde").is_ok();
        assert_eq!(rt; done, want, "room {room}, call {call}");
        assert_eq!(rt; sink.taken(), taken, "room {room}, call {call}");
    }
    let mut sink = SureSink::new(rt.alloc(), 3)?;
    assert!(rt; write_all(&mut sink, b"abcd").is_ok());
    assert_eq!(rt; sink.taken(), b"abc".as_slice());
    Ok(())
}

#[test]
fn the_limit_is_1048576_bytes(rt: HostRuntime) -> Result<(), Fail> {
    for (count, want) in [
        (1_048_576usize, None),
        (1_048_577, Some(ReadError::TooLong)),
    ] {
        let bytes = vec![in rt.alloc(); 7u8; count]?;
        let mut source = SureSource::new(rt.alloc(), &bytes)?;
        assert_eq!(rt; read_all(rt.alloc(), &mut source).err(), want);
    }
    Ok(())
}

#[test]
fn no_more_is_asked_for(rt: HostRuntime) -> Result<(), Fail> {
    for step in [1, 1_000, 4_096] {
        let mut source = Recorder {
            step,
            came: 0,
            widest: 0,
            within: true,
        };
        assert!(rt; read_all(rt.alloc(), &mut source).is_err(), "step {step}");
        assert_eq!(rt; source.widest, 4_096, "step {step}");
        assert_eq!(rt; source.came, 1_048_577, "step {step}");
        assert!(rt; source.within, "step {step}");
    }
    Ok(())
}

#[test]
fn readers_and_writers_pass_on(rt: HostRuntime) -> Result<(), Fail> {
    let read = read_all(rt.alloc(), &mut StdSource::new(b"abcde".as_slice()))?;
    assert_eq!(rt; read.as_slice(), b"abcde".as_slice());
    let mut written: Vec<u8> = Vec::new(rt.alloc());
    assert!(rt; write_all(&mut StdSink::new(&mut written), &read).is_ok());
    assert_eq!(rt; written.as_slice(), b"abcde".as_slice());

    let failed = read_all(rt.alloc(), &mut StdSource::new(Broken));
    assert_eq!(rt; failed.err(), Some(ReadError::Failed));
    let mut cells = [0u8; 3];
    let full = write_all(&mut StdSink::new(cells.as_mut_slice()), b"abcde");
    assert_eq!(rt; full, Err(Failed));
    assert_eq!(rt; cells.as_slice(), b"abc".as_slice());
    Ok(())
}
