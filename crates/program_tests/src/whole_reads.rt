use devices::{Source, SourceFault, read_whole};
use std::test::Fail;
use test_support::{FakeSource, same, same_in};

const TEXT: &[u8] = b"entry = 123\n";

#[test]
fn all_is_read_however_little_a_call_gives(rt: HostRuntime) -> Result<(), Fail> {
    for (step, calls) in [(1usize, 13), (3, 5), (12, 2), (5_000, 2)] {
        let mut source = FakeSource::of(TEXT, step);
        let bytes = read_whole(rt.alloc(), &mut source, 100)?;
        same_in(step, bytes.as_slice(), TEXT)?;
        same_in(step, source.failed(), false)?;
        same_in(step, source.calls, calls)?;
    }
    Ok(())
}

#[test]
fn reading_stops_at_the_limit(rt: HostRuntime) -> Result<(), Fail> {
    for limit in 0..13usize {
        for step in [1usize, 5, 100] {
            let mut source = FakeSource::of(TEXT, step);
            let bytes = read_whole(rt.alloc(), &mut source, limit)?;
            same_in((limit, step), Some(bytes.as_slice()), TEXT.get(..limit))?;
            same_in((limit, step), source.bytes.len(), 12 - limit)?;
        }
    }
    let mut untouched = FakeSource::of(TEXT, 1);
    read_whole(rt.alloc(), &mut untouched, 0)?;
    same(untouched.calls, 0)?;
    Ok(())
}

// The source would go on after the call that fails. The 13th would report the end.
#[test]
fn a_source_that_fails_is_broken_wherever_it_fails(rt: HostRuntime) -> Result<(), Fail> {
    for kept in 0..13u32 {
        let mut source = FakeSource::broken(TEXT, 1, kept as usize);
        let fault = read_whole(rt.alloc(), &mut source, 100).err();
        same_in(kept, fault, Some(SourceFault::Broken))?;
        same_in(kept, source.failed(), true)?;
        same_in("asked once more", source.calls, kept + 1)?;
    }
    Ok(())
}

#[test]
fn what_comes_after_the_limit_is_not_asked_for(rt: HostRuntime) -> Result<(), Fail> {
    let mut source = FakeSource::broken(TEXT, 5, 12);
    let bytes = read_whole(rt.alloc(), &mut source, 12)?;
    same(bytes.as_slice(), TEXT)?;
    same(source.failed(), false)?;
    Ok(())
}

#[test]
fn what_comes_after_the_end_is_not_asked_for(rt: HostRuntime) -> Result<(), Fail> {
    let mut source = FakeSource::with_more(TEXT, 5, b"more");
    let bytes = read_whole(rt.alloc(), &mut source, 100)?;
    same(bytes.as_slice(), TEXT)?;
    same(source.calls, 4)?;
    Ok(())
}

#[test]
fn long_sources_are_read_in_pieces(rt: HostRuntime) -> Result<(), Fail> {
    let text = "0123456789".repeat(rt.alloc(), 20_000)?;
    let mut source = FakeSource::of(text.as_str().as_bytes(), 100_000);
    let bytes = read_whole(rt.alloc(), &mut source, 199_999)?;
    same(bytes.len(), 199_999)?;
    same(text.as_str().as_bytes().starts_with(bytes.as_slice()), true)?;
    same(source.calls, 4)?;
    Ok(())
}

// As many bytes as a base's text may have, in pieces of 65,536, and then the end.
#[test]
fn sixteen_megabytes_are_read_whole(rt: HostRuntime) -> Result<(), Fail> {
    let text = "0123456789abcdef".repeat(rt.alloc(), 1_048_576)?;
    let mut source = FakeSource::of(text.as_str().as_bytes(), 100_000);
    let bytes = read_whole(rt.alloc(), &mut source, 16_777_217)?;
    same(bytes.len(), 16_777_216)?;
    same(bytes.as_slice() == text.as_str().as_bytes(), true)?;
    same(source.calls, 257)?;
    Ok(())
}
