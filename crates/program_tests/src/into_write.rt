use devices::{Broken, IntoWrite, Sink, WriteFault, write_whole};
use std::io::{self, ErrorKind, Write};
use std::test::Fail;
use test_support::{FakeSink, same, same_in};

#[test]
fn a_writer_of_std_takes_a_text(rt: HostRuntime) -> Result<(), Fail> {
    let mut writer = FakeSink::of(rt.alloc(), 3);
    let mut sink = IntoWrite::new(&mut writer);
    same(write_whole(&mut sink, b"CLEARED\n"), Ok(()))?;
    same(sink.failed(), false)?;
    same(writer.taken.as_slice(), b"CLEARED\n".as_slice())?;
    same((writer.writes, writer.flushes), (3, 1))?;
    Ok(())
}

// A write that takes none of some bytes is an error. The writer would take more after it.
#[test]
fn a_writer_that_takes_nothing_more_has_failed(rt: HostRuntime) -> Result<(), Fail> {
    for room in 0..8u32 {
        let mut writer = FakeSink::stalling(rt.alloc(), 1, room as usize);
        let mut sink = IntoWrite::new(&mut writer);
        let fault = WriteFault {
            wrote: u64::from(room),
        };
        same_in(room, write_whole(&mut sink, b"CLEARED\n"), Err(fault))?;
        same_in(room, sink.failed(), true)?;
        same_in("written once more", writer.writes, room + 1)?;
    }
    Ok(())
}

#[test]
fn a_write_of_no_bytes_is_no_error(rt: HostRuntime) -> Result<(), Fail> {
    let mut sink = IntoWrite::new(FakeSink::of(rt.alloc(), 1));
    same(sink.write(b""), Ok(0))?;
    same(sink.failed(), false)?;
    Ok(())
}

// The writer would go on after the call that fails.
#[test]
fn a_failed_write_or_flush_is_kept_in_mind(rt: HostRuntime) -> Result<(), Fail> {
    let mut writer = FakeSink::full(rt.alloc(), 1, 0);
    let mut sink = IntoWrite::new(&mut writer);
    for answer in [Err(Broken), Ok(1)] {
        same(sink.write(b"A"), answer)?;
        same_in("for good", sink.failed(), true)?;
    }
    same_in("written once more", writer.writes, 2)?;

    let mut writer = FakeSink::unflushed(rt.alloc(), 1);
    let mut sink = IntoWrite::new(&mut writer);
    for answer in [Err(Broken), Ok(())] {
        same(sink.flush(), answer)?;
        same_in("for good", sink.failed(), true)?;
    }
    same_in("flushed once more", writer.flushes, 2)?;
    Ok(())
}

// A writer that answers each call with an error of this kind.
#[derive(Drop)]
struct Failing {
    kind: ErrorKind,
}

impl Write for Failing {
    fn write(&mut self, _bytes: &[u8]) -> io::Result<usize> {
        Err(self.kind.into())
    }

    fn flush(&mut self) -> io::Result<()> {
        Err(self.kind.into())
    }
}

#[test]
fn a_pipe_without_a_reader_is_closed() -> Result<(), Fail> {
    for (kind, closed) in [
        (ErrorKind::BrokenPipe, true),
        (ErrorKind::StorageFull, false),
    ] {
        let mut sink = IntoWrite::new(Failing { kind });
        same_in("before", sink.is_closed(), false)?;
        same_in(kind, sink.write(b"A"), Err(Broken))?;
        same_in(kind, sink.is_closed(), closed)?;
        let mut sink = IntoWrite::new(Failing { kind });
        same_in(kind, sink.flush(), Err(Broken))?;
        same_in(kind, sink.is_closed(), closed)?;
    }
    Ok(())
}
