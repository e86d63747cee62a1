//! The texts of an edition's folder.

use editions::{EditionFile, WholeEdition, current_in, current_text, follows_in, next_number};
use std::alloc::{AllocError, Global};
use std::test::Fail;
use test_support::{same, same_in};

const CURRENT: [(&[u8], Option<u32>); 12] = [
    (b"3\n", Some(3)),
    (b"999999999\n", Some(999_999_999)),
    (b"0\n", Some(0)),
    (b"1000000000\n", None),
    (b"3", None),
    (b"", None),
    (b"\n", None),
    (b"3\n\n", None),
    (b"3\r\n", None),
    (b"03\n", None),
    (b" 3\n", None),
    (b"-\n", None),
];

#[test]
fn a_number_is_named_by_its_digits_and_a_line_end(rt: HostRuntime) -> Result<(), Fail> {
    for (text, number) in CURRENT {
        same(current_in(text), number)?;
        if let Some(number) = number {
            same(current_text(rt.alloc(), number)?.as_slice(), text)?;
        }
    }
    Ok(())
}

#[test]
fn an_edition_follows_a_number_or_nothing() -> Result<(), Fail> {
    same(follows_in(b"12\n"), Some(Some(12)))?;
    same(follows_in(b"-\n"), Some(None))?;
    same(follows_in(b"-"), None)?;
    same(follows_in(b""), None)
}

#[test]
fn the_next_number_is_one_more_than_the_greatest() -> Result<(), Fail> {
    same(next_number(&[]), Some(1))?;
    same(next_number(&[4, 7, 2]), Some(8))?;
    same(next_number(&[999_999_999]), None)
}

// What `sha256sum base.toml base.cert policy.toml follows` prints of these texts.
const SUMS: &str = "\
feab64bb74c89795975d03c1d8b7adf106f23bb357f2ff275eef36cf91b69a35  base.toml\n\
965db2482eb7f826dbcd55f7e60bd5bc23da040a5f7c430b915086a4996fda9e  base.cert\n\
0256ba390a1aa4620b79ef314e739021d3019afd664d307f3bdb7b9dab506ed2  policy.toml\n\
53c234e5e8472b6ac51c1ae1cab3fe06fad053beb8ebfd8977b010655bfdd3c3  follows\n";

fn vec_of(alloc: Global, bytes: &[u8]) -> Result<Vec<u8>, AllocError> {
    let mut copy = Vec::new(alloc);
    copy.extend_from_slice(bytes)?;
    Ok(copy)
}

#[test]
fn the_sums_are_those_of_sha256sum(rt: HostRuntime) -> Result<(), Fail> {
    let base = vec_of(rt.alloc(), b"entry = 1\n")?;
    let cert = vec_of(rt.alloc(), b"PBC1\n")?;
    let policy = vec_of(rt.alloc(), b"ceiling = 5\n")?;
    let edition = WholeEdition::of(rt.alloc(), base, cert, policy, Some(2))?;
    same(edition.follows.as_slice(), b"2\n".as_slice())?;
    same_in("sums", edition.sums.as_slice(), SUMS.as_bytes())
}

#[test]
fn files_have_their_names() -> Result<(), Fail> {
    same(EditionFile::Base.name(), "base.toml")?;
    same(EditionFile::Cert.name(), "base.cert")?;
    same(EditionFile::Policy.name(), "policy.toml")?;
    same(EditionFile::Follows.name(), "follows")?;
    same(EditionFile::Sums.name(), "SHA256SUMS")
}
