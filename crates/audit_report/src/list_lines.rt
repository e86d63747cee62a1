//! The lines, written after a text that has room for them. None of these calls takes memory.

ghost use Rattle.std.specs.Prelude.{◌≡◌, ◌≤◌, ◌+◌, ◌*◌, ◌++◌, length};
ghost use Rattle.std.specs.Vec.{vec_len, vec_capacity};
ghost use Rattle.page_ids.specs.Keys.{key_word, keys_text};
ghost use Rattle.audit_report.specs.Lines.{with_id};
ghost use Rattle.audit_report.specs.ReportLines.{script_text};
ghost use Rattle.audit_report.specs.Listing.{with_or, price_and_group, price_and_group_members, script_member, frame_line, unreached_line};
ghost use Rattle.audit_report.specs.declared.list_form.ListForm.TheVariants.{Line as InLine, Json as InJson};

use crate::list_form::ListForm;
use frame_records::{Frame, GroupNo};
use itoa::Buffer;
use page_ids::{FrameId, Key};

fn push_bytes(out: &mut Vec<u8>, bytes: &[u8])
    requires room { vec_len out.old + length bytes.now ≤ vec_capacity out.old }
    ensures items { out.new.items ≡ out.old.items ++ bytes.now }
    ensures len { vec_len out.new ≡ vec_len out.old + length bytes.now }
    ensures capacity { vec_capacity out.old ≤ vec_capacity out.new }
{
    // There is room, so it succeeds.
    let _ = out.extend_from_slice(bytes);
}

// The text of an id has at most 10 bytes.
fn push_id(out: &mut Vec<u8>, words: &[u8], id: FrameId)
    requires room { vec_len out.old + (length words.now + 10) ≤ vec_capacity out.old }
    ensures items { out.new.items ≡ out.old.items ++ with_id words.now id }
    ensures len { vec_len out.new ≤ vec_len out.old + (length words.now + 10) }
    ensures capacity { vec_capacity out.old ≤ vec_capacity out.new }
{
    let text = id.text();
    push_bytes(out, words);
    push_bytes(out, text.as_str().as_bytes());
}

// The text of a number has at most 40 bytes.
fn push_or(out: &mut Vec<u8>, words: &[u8], number: Option<u64>, none: &[u8])
    requires room { vec_len out.old + (length words.now + 40) ≤ vec_capacity out.old }
    requires short { length none.now ≤ 40 }
    ensures items { out.new.items ≡ out.old.items ++ with_or none.now words.now number }
    ensures len { vec_len out.new ≤ vec_len out.old + (length words.now + 40) }
    ensures capacity { vec_capacity out.old ≤ vec_capacity out.new }
{
    push_bytes(out, words);
    match number {
        Some(number) => push_bytes(out, Buffer::new().format(number).as_bytes()),
        None => push_bytes(out, none),
    }
}

// The word of a key has at most 3 bytes.
fn push_key(out: &mut Vec<u8>, key: Key)
    requires room { vec_len out.old + 3 ≤ vec_capacity out.old }
    ensures items { out.new.items ≡ out.old.items ++ key_word key }
    ensures len { vec_len out.new ≤ vec_len out.old + 3 }
    ensures capacity { vec_capacity out.old ≤ vec_capacity out.new }
{
    match key {
        Key::Route(digit) => push_bytes(out, &[b'0' + digit.get()]),
        Key::Next => push_bytes(out, b"#"),
        Key::Prev => push_bytes(out, b"*#"),
        Key::Reprint => push_bytes(out, b"*00"),
        Key::Update => push_bytes(out, b"*09"),
    }
}

fn push_keys(out: &mut Vec<u8>, keys: &[Key])
    requires room { vec_len out.old + 3 * length keys.now ≤ vec_capacity out.old }
    ensures items { out.new.items ≡ out.old.items ++ keys_text keys.now }
    ensures len { vec_len out.new ≤ vec_len out.old + 3 * length keys.now }
    ensures capacity { vec_capacity out.old ≤ vec_capacity out.new }
{
    for key in keys {
        push_key(out, *key);
    }
}

// The keys that lead to a frame.
fn push_script(out: &mut Vec<u8>, keys: &[Key])
    requires room { vec_len out.old + (9 + 3 * length keys.now) ≤ vec_capacity out.old }
    ensures items { out.new.items ≡ out.old.items ++ script_text keys.now }
    ensures len { vec_len out.new ≤ vec_len out.old + (9 + 3 * length keys.now) }
    ensures capacity { vec_capacity out.old ≤ vec_capacity out.new }
{
    match keys {
        [] => push_bytes(out, b" SCRIPT -"),
        _ => {
            push_bytes(out, b" SCRIPT ");
            push_keys(out, keys);
        }
    }
}

fn number_of(group: Option<GroupNo>) -> Option<u64>
    ensures { result ≡ group }
{
    Some(u64::from(group?.get()))
}

fn rank_number(rank: Option<u16>) -> Option<u64>
    ensures { result ≡ rank }
{
    Some(u64::from(rank?))
}

fn push_price_and_group(out: &mut Vec<u8>, frame: &Frame)
    requires room { vec_len out.old + 94 ≤ vec_capacity out.old }
    ensures items { out.new.items ≡ out.old.items ++ price_and_group frame.now }
    ensures len { vec_len out.new ≤ vec_len out.old + 94 }
    ensures capacity { vec_capacity out.old ≤ vec_capacity out.new }
{
    push_or(out, b" PRICE ", Some(u64::from(frame.price.get())), b"-");
    push_or(out, b" GROUP ", number_of(frame.group), b"-");
}

// The same two as members of an object.
fn push_members(out: &mut Vec<u8>, frame: &Frame)
    requires room { vec_len out.old + 98 ≤ vec_capacity out.old }
    ensures items { out.new.items ≡ out.old.items ++ price_and_group_members frame.now }
    ensures len { vec_len out.new ≤ vec_len out.old + 98 }
    ensures capacity { vec_capacity out.old ≤ vec_capacity out.new }
{
    push_or(
        out,
        b",\"price\":",
        Some(u64::from(frame.price.get())),
        b"null",
    );
    push_or(out, b",\"group\":", number_of(frame.group), b"null");
}

fn push_script_member(out: &mut Vec<u8>, keys: &[Key])
    requires room { vec_len out.old + (13 + 3 * length keys.now) ≤ vec_capacity out.old }
    ensures items { out.new.items ≡ out.old.items ++ script_member keys.now }
    ensures len { vec_len out.new ≤ vec_len out.old + (13 + 3 * length keys.now) }
    ensures capacity { vec_capacity out.old ≤ vec_capacity out.new }
{
    push_bytes(out, b",\"script\":\"");
    push_keys(out, keys);
    push_bytes(out, b"\"}");
}

fn push_frame_words(out: &mut Vec<u8>, frame: &Frame, rank: Option<u16>, keys: &[Key])
    requires room { vec_len out.old + (256 + 3 * length keys.now) ≤ vec_capacity out.old }
    ensures items { out.new.items ≡ out.old.items ++ frame_line InLine frame.now rank keys.now }
    ensures len { vec_len out.new ≤ vec_len out.old + (256 + 3 * length keys.now) }
    ensures capacity { vec_capacity out.old ≤ vec_capacity out.new }
{
    push_id(out, b"FRAME ", frame.id);
    push_or(out, b" RANK ", rank_number(rank), b"-");
    push_price_and_group(out, frame);
    push_script(out, keys);
    push_bytes(out, b"\n");
}

fn push_frame_object(out: &mut Vec<u8>, frame: &Frame, rank: Option<u16>, keys: &[Key])
    requires room { vec_len out.old + (256 + 3 * length keys.now) ≤ vec_capacity out.old }
    ensures items { out.new.items ≡ out.old.items ++ frame_line InJson frame.now rank keys.now }
    ensures len { vec_len out.new ≤ vec_len out.old + (256 + 3 * length keys.now) }
    ensures capacity { vec_capacity out.old ≤ vec_capacity out.new }
{
    push_id(out, b"{\"frame\":\"", frame.id);
    push_or(
        out,
        b"\",\"reached\":true,\"rank\":",
        rank_number(rank),
        b"null",
    );
    push_members(out, frame);
    push_script_member(out, keys);
    push_bytes(out, b"\n");
}

// The line of a frame that is reached: its rank, and the keys that lead to it.
pub fn push_frame(out: &mut Vec<u8>, form: ListForm, frame: &Frame, rank: Option<u16>, keys: &[Key])
    requires room { vec_len out.old + (256 + 3 * length keys.now) ≤ vec_capacity out.old }
    ensures items { out.new.items ≡ out.old.items ++ frame_line form frame.now rank keys.now }
    ensures len { vec_len out.new ≤ vec_len out.old + (256 + 3 * length keys.now) }
    ensures capacity { vec_capacity out.old ≤ vec_capacity out.new }
{
    match form {
        ListForm::Line => push_frame_words(out, frame, rank, keys),
        ListForm::Json => push_frame_object(out, frame, rank, keys),
    }
}

fn push_unreached_words(out: &mut Vec<u8>, frame: &Frame)
    requires room { vec_len out.old + 256 ≤ vec_capacity out.old }
    ensures items { out.new.items ≡ out.old.items ++ unreached_line InLine frame.now }
    ensures len { vec_len out.new ≤ vec_len out.old + 256 }
    ensures capacity { vec_capacity out.old ≤ vec_capacity out.new }
{
    push_id(out, b"UNREACHED ", frame.id);
    push_price_and_group(out, frame);
    push_bytes(out, b"\n");
}

fn push_unreached_object(out: &mut Vec<u8>, frame: &Frame)
    requires room { vec_len out.old + 256 ≤ vec_capacity out.old }
    ensures items { out.new.items ≡ out.old.items ++ unreached_line InJson frame.now }
    ensures len { vec_len out.new ≤ vec_len out.old + 256 }
    ensures capacity { vec_capacity out.old ≤ vec_capacity out.new }
{
    push_id(out, b"{\"frame\":\"", frame.id);
    push_bytes(out, b"\",\"reached\":false,\"rank\":null");
    push_members(out, frame);
    push_bytes(out, b",\"script\":null}");
    push_bytes(out, b"\n");
}

// The line of a frame that isn't.
pub fn push_unreached(out: &mut Vec<u8>, form: ListForm, frame: &Frame)
    requires room { vec_len out.old + 256 ≤ vec_capacity out.old }
    ensures items { out.new.items ≡ out.old.items ++ unreached_line form frame.now }
    ensures len { vec_len out.new ≤ vec_len out.old + 256 }
    ensures capacity { vec_capacity out.old ≤ vec_capacity out.new }
{
    match form {
        ListForm::Line => push_unreached_words(out, frame),
        ListForm::Json => push_unreached_object(out, frame),
    }
}
