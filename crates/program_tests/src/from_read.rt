use devices::{Broken, FromRead, Source, SourceFault, read_whole};
use std::test::Fail;
use test_support::{FakeSource, same, same_in};

const TEXT: &[u8] = b"entry = 0\n";

#[test]
fn a_reader_of_std_is_read_whole(rt: HostRuntime) -> Result<(), Fail> {
    let mut source = FromRead::new(TEXT);
    let bytes = read_whole(rt.alloc(), &mut source, 100)?;
    same(bytes.as_slice(), TEXT)?;
    same(source.failed(), false)?;
    Ok(())
}

// Three pieces of 65,536 bytes, the 3,392 that are left, and the end.
#[test]
fn a_reader_of_std_is_asked_for_whole_pieces(rt: HostRuntime) -> Result<(), Fail> {
    let text = "0123456789".repeat(rt.alloc(), 20_000)?;
    let mut reader = FakeSource::of(text.as_str().as_bytes(), 100_000);
    let bytes = read_whole(rt.alloc(), &mut FromRead::new(&mut reader), 300_000)?;
    let is_whole = bytes.as_slice() == text.as_str().as_bytes();
    same((is_whole, reader.calls), (true, 5))
}

// The reader would go on after the call that fails.
#[test]
fn a_failed_read_is_kept_in_mind() -> Result<(), Fail> {
    let mut reader = FakeSource::broken(TEXT, 100, 0);
    let mut source = FromRead::new(&mut reader);
    let mut piece = [0; 4];
    for answer in [Err(Broken), Ok(4)] {
        same(source.read(&mut piece), answer)?;
        same_in("for good", source.failed(), true)?;
    }
    same_in("read once more", reader.calls, 2)?;
    Ok(())
}

#[test]
fn a_reader_that_fails_is_broken(rt: HostRuntime) -> Result<(), Fail> {
    let mut reader = FakeSource::broken(TEXT, 4, 8);
    let fault = read_whole(rt.alloc(), &mut FromRead::new(&mut reader), 100).err();
    same(fault, Some(SourceFault::Broken))?;
    same_in("read once more", reader.calls, 3)?;
    Ok(())
}

// The reader would give more after its end.
#[test]
fn the_end_of_a_reader_is_taken_for_it() -> Result<(), Fail> {
    let mut reader = FakeSource::with_more(b"", 4, b"more");
    let mut source = FromRead::new(&mut reader);
    let mut piece = [0; 4];
    same(source.read(&mut piece), Ok(0))?;
    same(source.failed(), false)?;
    same_in("read once more", reader.calls, 1)?;
    Ok(())
}
