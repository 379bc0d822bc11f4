//! What no clause says: that calls succeed where memory is ample, and each fake call by call against values worked out
//! by hand.
use super::*;
use std::io;
use std::io::{Read, Write};
use std::test::Fail;

// The report of one unrefined cell of value 7.
const REPORT: &[u8] = b"step 0 leaves 1\n0 0 0 7\n";

#[test]
fn a_source_fails_at_its_listed_calls(rt: HostRuntime) -> Result<(), Fail> {
    let alloc = rt.alloc();
    let mut source = MemSource::new(b"abcde".to_vec(alloc)?, [1, 3].to_vec(alloc)?);
    let calls: [(Result<usize, ReadFailed>, &[u8]); 6] = [
        (Ok(2), b"cde"),
        (Err(ReadFailed), b"cde"),
        (Ok(2), b"e"),
        (Err(ReadFailed), b"e"),
        (Ok(1), b""),
        (Ok(0), b""),
    ];
    for (call, (want, left)) in calls.iter().enumerate() {
        let mut buf = [0u8; 2];
        assert!(rt; !source.has_ended());
        assert_eq!(rt; source.read(&mut buf), *want, "call {call}");
        assert_eq!(rt; source.left(), *left, "call {call}");
    }
    Ok(())
}

#[test]
fn a_sink_fails_at_its_listed_calls_and_without_room(rt: HostRuntime) -> Result<(), Fail> {
    let alloc = rt.alloc();
    let mut sink = MemSink::new(alloc, 5, 2, [1].to_vec(alloc)?)?;
    let calls: [(Result<usize, WriteFailed>, &[u8]); 5] = [
        (Ok(2), b"ab"),
        (Err(WriteFailed), b"ab"),
        (Ok(2), b"abab"),
        (Ok(1), b"ababa"),
        (Err(WriteFailed), b"ababa"),
    ];
    for (call, (want, bytes)) in calls.iter().enumerate() {
        assert_eq!(rt; sink.write(b"abc"), *want, "call {call}");
        assert_eq!(rt; sink.bytes(), *bytes, "call {call}");
    }
    Ok(())
}

#[test]
fn a_failed_write_leaves_a_prefix_of_the_report(rt: HostRuntime) -> Result<(), Fail> {
    let alloc = rt.alloc();
    let cases: [(u64, &[u64], Result<(), WriteFault>, &[u8]); 4] = [
        (24, &[], Ok(()), REPORT),
        (24, &[1], Err(WriteFault { written: 10 }), b"step 0 lea"),
        (24, &[0], Err(WriteFault { written: 0 }), b""),
        (
            23,
            &[],
            Err(WriteFault { written: 23 }),
            b"step 0 leaves 1\n0 0 0 7",
        ),
    ];
    for (case, (room, failing, want, bytes)) in cases.iter().enumerate() {
        let mut sink = MemSink::new(alloc, *room, 10, failing.to_vec(alloc)?)?;
        assert_eq!(rt; write_whole(&mut sink, REPORT), *want, "case {case}");
        assert_eq!(rt; sink.bytes(), *bytes, "case {case}");
    }
    Ok(())
}

#[test]
fn a_source_is_read_to_its_end_within_the_limit(rt: HostRuntime) -> Result<(), Fail> {
    let alloc = rt.alloc();
    let cases: [(&[u8], u64, &[u64], Result<&[u8], ReadAllFault>, &[u8]); 8] = [
        (b"abcde", 5, &[], Ok(b"abcde"), b""),
        (b"abcde", 4, &[], Err(ReadAllFault::TooLong), b""),
        (b"abcde", 3, &[], Err(ReadAllFault::TooLong), b"e"),
        (b"", 0, &[], Ok(b""), b""),
        (b"a", 0, &[], Err(ReadAllFault::TooLong), b""),
        (b"abcde", 5, &[0], Err(ReadAllFault::ReadFault), b"abcde"),
        (b"abcde", 5, &[1], Err(ReadAllFault::ReadFault), b""),
        (b"abcde", 4, &[1], Err(ReadAllFault::TooLong), b""),
    ];
    for (case, (bytes, limit, failing, want, left)) in cases.iter().enumerate() {
        let mut source = MemSource::new(bytes.to_vec(alloc)?, failing.to_vec(alloc)?);
        let got = read_all(alloc, &mut source, *limit);
        match (&got, want) {
            (Ok(got), Ok(want)) => assert_eq!(rt; got.as_slice(), *want, "case {case}"),
            (Err(got), Err(want)) => assert_eq!(rt; *got, *want, "case {case}"),
            _ => assert!(rt; false, "case {case}"),
        }
        assert_eq!(rt; source.left(), *left, "case {case}");
    }
    Ok(())
}

#[test]
fn a_megabyte_is_read_whole(rt: HostRuntime) -> Result<(), Fail> {
    let alloc = rt.alloc();
    let megabyte = vec![in alloc; 7u8; 1 << 20]?;
    let mut source = SureSource::new(megabyte.clone()?);
    let got = read_all(alloc, &mut source, 1 << 20)?;
    assert!(rt; got.as_slice() == megabyte.as_slice());
    assert!(rt; source.left().is_empty());
    Ok(())
}

#[test]
fn a_pipe_carries_the_report(rt: HostRuntime) -> Result<(), Fail> {
    let (reader, writer) = io::pipe(&rt)?;
    let mut sink = StdSink::new(writer);
    assert_eq!(rt; write_whole(&mut sink, REPORT), Ok(()));
    drop(sink);
    let mut source = StdSource::new(reader);
    let got = read_all(rt.alloc(), &mut source, 24)?;
    assert_eq!(rt; got.as_slice(), REPORT);
    Ok(())
}

// A device of std that always fails, or takes nothing.
#[derive(Drop)]
struct Broken {
    takes_nothing: bool,
}

impl Read for Broken {
    fn read(&mut self, _buf: &mut [u8]) -> io::Result<usize> {
        Err(io::Error::from(io::ErrorKind::Interrupted))
    }
}

impl Write for Broken {
    fn write(&mut self, _piece: &[u8]) -> io::Result<usize> {
        if self.takes_nothing {
            Ok(0)
        } else {
            Err(io::Error::from(io::ErrorKind::BrokenPipe))
        }
    }

    fn flush(&mut self) -> io::Result<()> {
        Ok(())
    }
}

#[test]
fn a_broken_device_fails(rt: HostRuntime) -> Result<(), Fail> {
    for takes_nothing in [true, false] {
        let mut sink = StdSink::new(Broken { takes_nothing });
        let got = write_whole(&mut sink, REPORT);
        assert_eq!(rt; got, Err(WriteFault { written: 0 }), "{takes_nothing}");
        let mut source = StdSource::new(Broken { takes_nothing });
        let got = read_all(rt.alloc(), &mut source, 24);
        assert!(rt;
            matches!(got, Err(ReadAllFault::ReadFault)),
            "{takes_nothing}"
        );
    }
    Ok(())
}
