//! Runs of plain bytes, 32 at a time.

ghost use Rattle.std.specs.Prelude.{◌≡◌, ◌↔◌, map, slice_index, EachIndex, IsTrue, IsBitSet};
ghost use Rattle.std.specs.Simd.Lanes.{mask_l};
ghost use Rattle.abstract_paint.specs.Plain.{is_plain, plain_len};
ghost use Rattle.abstract_paint.specs.Loops.{is_other};

use std::simd::prelude::*;

/// Whether the byte is plain, 20 to 7F.
pub fn is_plain(byte: u8) -> bool
    ensures { result ≡ is_plain byte }
{
    byte >= 0x20 && byte < 0x80
}

// The bits of the lanes that are plain.
fn lane_mask(lanes: u8x32) -> u64
    ensures { result ≡ mask_l (map is_plain lanes) }
{
    let plain = lanes.simd_ge(u8x32::splat(0x20)) & lanes.simd_lt(u8x32::splat(0x80));
    plain.to_bitmask()
}

/// Which of 32 bytes are plain, 20 to 7F: bit i is set if and only if byte i is.
pub fn plain_mask(bytes: &[u8; 32]) -> u32
    ensures mask { result ≡ mask_l (map is_plain bytes.now) }
    ensures bits { EachIndex bytes.now (λ i. IsBitSet result i ↔ IsTrue (is_plain (slice_index bytes.now i))) }
{
    lane_mask(u8x32::from_array(*bytes)) as u32
}

// The bits of the bytes that aren't plain.
fn other_mask(bytes: &[u8; 32]) -> u32
    ensures { result ≡ mask_l (map is_other bytes.now) }
{
    !plain_mask(bytes)
}

// The run, byte by byte.
fn short_run(bytes: &[u8]) -> usize
    ensures { result ≡ plain_len bytes.now }
{
    bytes.iter().take_while(|byte| is_plain(**byte)).count()
}

/// How many plain bytes, 20 to 7F, the bytes begin with.
pub fn plain_run(bytes: &[u8]) -> usize
    ensures { result ≡ plain_len bytes.now }
{
    let mut run = 0;
    while let Some(chunk) = bytes[run..].first_chunk::<32>() {
        let others = other_mask(chunk);
        if others != 0 {
            return run + others.trailing_zeros() as usize;
        }
        run += 32;
    }
    run + short_run(&bytes[run..])
}

// The same. A run of fewer than 8 bytes is counted byte by byte: lanes pay for longer ones.
pub fn front_run(bytes: &[u8]) -> usize
    ensures { result ≡ plain_len bytes.now }
{
    if bytes.len() < 8 {
        return short_run(bytes);
    }
    let short = short_run(&bytes[..8]);
    if short < 8 {
        return short;
    }
    8 + plain_run(&bytes[8..])
}
