use line_keys::{Heard, Hearing, telnet_is_passed_over, top_bit_is_dropped, words_are_heard};
use page_ids::push_key;
use std::alloc::Global;
use std::test::Fail;
use test_support::same_in;

// What bytes ask for: a key as its word in brackets, `.` for nothing, `>` and the command so far, `P` for a page, `E` for the end.
fn heard(alloc: Global, bytes: &[u8]) -> Result<Vec<u8>, Fail> {
    let mut hearing = Hearing::new();
    let mut text = Vec::new(alloc);
    for byte in bytes {
        match hearing.hear(*byte) {
            Heard::Nothing => text.push(b'.')?,
            Heard::Changed => {
                text.push(b'>')?;
                text.extend_from_slice(hearing.command())?;
            }
            Heard::Pressed(key) => {
                text.push(b'[')?;
                push_key(&mut text, key)?;
                text.push(b']')?;
            }
            Heard::Page => text.push(b'P')?,
            Heard::End => text.push(b'E')?,
        }
    }
    Ok(text)
}

const HEARD: [(&[u8], &[u8]); 20] = [
    (b"1#0", b"[1][#][0]"),
    // a terminal sends 5F for `#`
    (b"_*_", b"[#]>*[*#]"),
    (b"*00*09", b">*>*0[*00]>*>*0[*09]"),
    (b"**1", b">*>[1]"),
    (b"*12*#", b">*>*1>*12>*[*#]"),
    (b"*12**1", b">*>*1>*12>*>[1]"),
    (b"*0#", b">*>*0P"),
    (b"*1234#1", b">*>*1>*12>*123>*1234P[1]"),
    (b"*01#", b">*>*0>*01P"),
    (b"*90#", b">*>*9>*90E"),
    (b"*900#", b">*>*9>*90>*900P"),
    // nine digits are the most
    (
        b"*1234567890#",
        b">*>*1>*12>*123>*1234>*12345>*123456>*1234567>*12345678>*123456789.P",
    ),
    // what is no key
    (b"a 1\r\n\x00#", b"..[1]...[#]"),
    (b"*a0 0", b">*.>*0.[*00]"),
    // with bit 7
    (b"\xb1\xa3\xdf\xaa\xa3", b"[1][#][#]>*[*#]"),
    // telnet: one byte, an option whose number is that of `#`, a block, and a byte FF
    (b"\xff\xf11", b"..[1]"),
    (b"*\xff\xfd\x230\xff\xfc\x310", b">*...>*0...[*00]"),
    (b"\xff\xfa\x18\x01#\xff\xf0#", b".......[#]"),
    (b"\xff\xfa\xff\xff\xf01\xff\xf01", b"........[1]"),
    (b"\xff\xff1", b"..[1]"),
];

#[test]
fn bytes_are_heard_as_keys(rt: HostRuntime) -> Result<(), Fail> {
    let alloc = rt.alloc();
    for (bytes, wanted) in HEARD {
        let text = heard(alloc, bytes)?;
        same_in(bytes, text.as_slice(), wanted)?;
    }
    words_are_heard();
    telnet_is_passed_over();
    top_bit_is_dropped();
    Ok(())
}
