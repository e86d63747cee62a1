//! Seven bits a code.

ghost use Rattle.std.specs.Prelude.{◌≡◌, ◌≤◌, ◌++◌, IfOk, OnOk, length, map};
ghost use Rattle.screen_forms.specs.Bits as spec;
ghost use Rattle.screen_forms.specs.Loops as loops;

use std::alloc::{AllocError, Global};

/// The code of a byte of a saved screen: 00 to 1F are the attributes 80 to 9F, as teletext stores them, and A0 to FF are 20 to 7F.
pub fn stored_code(byte: u8) -> u8
    ensures { result ≡ spec.stored_code byte }
{
    match byte {
        0x00..=0x1f => byte + 0x80,
        0x20..=0x9f => byte,
        0xa0..=0xff => byte - 0x80,
    }
}

// The low seven bits of eight codes.
fn group_bytes(codes: [u8; 8]) -> [u8; 7]
    ensures { result ≡ spec.group_bytes codes }
{
    let [a, b, c, d, e, f, g, h] = codes;
    [
        a % 128 * 2 + b % 128 / 64,
        b % 64 * 4 + c % 128 / 32,
        c % 32 * 8 + d % 128 / 16,
        d % 16 * 16 + e % 128 / 8,
        e % 8 * 32 + f % 128 / 4,
        f % 4 * 64 + g % 128 / 2,
        g % 2 * 128 + h % 128,
    ]
}

// The bits of seven bytes.
fn group_cells(bytes: [u8; 7]) -> [u8; 8]
    ensures { result ≡ spec.group_cells bytes }
{
    let [p, q, r, s, t, u, v] = bytes;
    [
        p / 2,
        p % 2 * 64 + q / 4,
        q % 4 * 32 + r / 8,
        r % 8 * 16 + s / 16,
        s % 16 * 8 + t / 32,
        t % 32 * 4 + u / 64,
        u % 64 * 2 + v / 128,
        v % 128,
    ]
}

// Writes the low seven bits of the first eight codes.
fn push_bytes(bytes: &mut Vec<u8>, codes: &[u8]) -> Result<(), AllocError>
    requires { 8 ≤ length codes.now }
    ensures { OnOk result (bytes.new.items ≡ bytes.old.items ++ loops.bytes_of_eight codes.now) }
{
    bytes.extend_from_slice(&group_bytes([
        codes[0], codes[1], codes[2], codes[3], codes[4], codes[5], codes[6], codes[7],
    ]))
}

// Writes the bits of the first seven bytes.
fn push_cells(cells: &mut Vec<u8>, bytes: &[u8]) -> Result<(), AllocError>
    requires { 7 ≤ length bytes.now }
    ensures { OnOk result (cells.new.items ≡ cells.old.items ++ loops.cells_of_seven bytes.now) }
{
    cells.extend_from_slice(&group_cells([
        bytes[0], bytes[1], bytes[2], bytes[3], bytes[4], bytes[5], bytes[6],
    ]))
}

// Eight codes as seven bytes, and so on. What is left after the last eight is dropped.
#[tactic(auto, using(crate::proofs::Packs::packed_more, crate::proofs::Packs::packed_none, std::proofs::Common::append_assoc))]
pub fn packed(alloc: Global, codes: &[u8]) -> Result<Vec<u8>, AllocError>
    ensures { IfOk result (λ bytes. bytes.items ≡ spec.packed codes.now) }
{
    let mut bytes = Vec::new(alloc);
    let mut left = codes;
    while left.len() >= 8 {
        let (group, rest) = left.split_at(8);
        push_bytes(&mut bytes, group)?;
        left = rest;
    }
    Ok(bytes)
}

// Seven bytes as eight codes of seven bits, and so on.
#[tactic(auto, using(crate::proofs::Packs::unpacked_more, crate::proofs::Packs::unpacked_none, std::proofs::Common::append_assoc))]
pub fn unpacked(alloc: Global, bytes: &[u8]) -> Result<Vec<u8>, AllocError>
    ensures { IfOk result (λ cells. cells.items ≡ spec.unpacked bytes.now) }
{
    let mut cells = Vec::new(alloc);
    let mut left = bytes;
    while left.len() >= 7 {
        let (group, rest) = left.split_at(7);
        push_cells(&mut cells, group)?;
        left = rest;
    }
    Ok(cells)
}

// The codes of stored cells.
pub fn store_codes(cells: &mut [u8])
    ensures { cells.new ≡ map spec.stored_code cells.old }
{
    for cell in cells.iter_mut() {
        *cell = stored_code(*cell);
    }
}
