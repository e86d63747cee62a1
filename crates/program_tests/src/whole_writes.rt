use devices::{Sink, WriteFault, write_last, write_piece, write_whole};
use std::test::Fail;
use test_support::{FakeSink, same, same_in};

const TEXT: &[u8] = b"CLEARED\n";

// How many bytes a call writes, and the calls that the eight bytes take.
const STEPS: [(usize, u32); 5] = [(1, 8), (3, 3), (7, 2), (8, 1), (100, 1)];

#[test]
fn all_is_taken_and_flushed_however_little_a_call_takes(rt: HostRuntime) -> Result<(), Fail> {
    for (step, calls) in STEPS {
        let mut sink = FakeSink::of(rt.alloc(), step);
        same_in(step, write_whole(&mut sink, TEXT), Ok(()))?;
        same_in(step, sink.taken.as_slice(), TEXT)?;
        same_in(step, (sink.writes, sink.flushes), (calls, 1))?;
        same_in("flushed after the bytes", sink.flushed, 8)?;
        same_in(step, sink.failed(), false)?;
    }
    Ok(())
}

#[test]
fn a_text_without_bytes_is_flushed_alone(rt: HostRuntime) -> Result<(), Fail> {
    let mut sink = FakeSink::of(rt.alloc(), 1);
    same(write_whole(&mut sink, b""), Ok(()))?;
    same((sink.writes, sink.flushes), (0, 1))?;
    Ok(())
}

// The sink would go on after the call that fails.
#[test]
fn a_failed_write_ends_it_with_the_bytes_that_were_taken(rt: HostRuntime) -> Result<(), Fail> {
    for (step, calls) in STEPS {
        for call in 1..=calls {
            let wrote = (call as usize - 1).wrapping_mul(step);
            let mut sink = FakeSink::full(rt.alloc(), step, wrote);
            let fault = WriteFault {
                wrote: wrote as u64,
            };
            same_in((call, step), write_whole(&mut sink, TEXT), Err(fault))?;
            same_in((call, step), Some(sink.taken.as_slice()), TEXT.get(..wrote))?;
            same_in("written once more", (sink.writes, sink.flushes), (call, 0))?;
            same_in((call, step), sink.failed(), true)?;
        }
    }
    Ok(())
}

#[test]
fn a_failed_flush_comes_after_all_the_bytes(rt: HostRuntime) -> Result<(), Fail> {
    for text in [TEXT, b""] {
        let mut sink = FakeSink::unflushed(rt.alloc(), 3);
        let fault = WriteFault {
            wrote: text.len() as u64,
        };
        same(write_whole(&mut sink, text), Err(fault))?;
        same(sink.taken.as_slice(), text)?;
        same_in("flushed once more", sink.flushes, 1)?;
        same(sink.failed(), true)?;
    }
    Ok(())
}

// A text in pieces of 40,000 bytes is written when 65,536 or more are kept, and flushed once at its end; each count is of all
// the bytes.
#[test]
fn a_text_is_written_piece_by_piece(rt: HostRuntime) -> Result<(), Fail> {
    let piece = "0123456789".repeat(rt.alloc(), 4_000)?;
    let mut sink = FakeSink::of(rt.alloc(), 1_000_000);
    let mut kept = Vec::new(rt.alloc());
    kept.extend_from_slice(piece.as_str().as_bytes())?;
    let Ok(wrote) = write_piece(&mut sink, &mut kept, 0) else {
        return same("a write that fails", "no write");
    };
    same(wrote, 0)?;
    kept.extend_from_slice(piece.as_str().as_bytes())?;
    let Ok(wrote) = write_piece(&mut sink, &mut kept, 0) else {
        return same("a write that fails", "a write");
    };
    same(wrote, 80_000)?;
    same((kept.len(), sink.writes, sink.flushes), (0, 1, 0))?;
    same(write_last(&mut sink, b"end\n", 80_000), Ok(()))?;
    same(
        (sink.taken.len(), sink.writes, sink.flushes),
        (80_004, 2, 1),
    )
}

// What was taken before counts too.
#[test]
fn a_piece_that_fails_counts_all_bytes(rt: HostRuntime) -> Result<(), Fail> {
    let piece = "0123456789".repeat(rt.alloc(), 7_000)?;
    let mut kept = Vec::new(rt.alloc());
    kept.extend_from_slice(piece.as_str().as_bytes())?;
    let mut sink = FakeSink::full(rt.alloc(), 1_000, 60_000);
    same(
        write_piece(&mut sink, &mut kept, 100),
        Err(WriteFault { wrote: 60_100 }),
    )?;
    let mut sink = FakeSink::unflushed(rt.alloc(), 3);
    same(
        write_last(&mut sink, b"end\n", 100),
        Err(WriteFault { wrote: 104 }),
    )?;
    same(sink.flushes, 1)
}
