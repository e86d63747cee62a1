ghost use Rattle.std.specs.Prelude.{◌≡◌, ◌+◌, ◌++◌, IfOk, MatchResult, length};
ghost use Rattle.page_ids.specs.declared.key.Key.{Key};
ghost use Rattle.page_ids.specs.Keys.{key_word, keys_text, AreKeysRead, KeysAreTexts};
ghost use Rattle.page_ids.specs.Loops.{key_read_at};

use crate::fault::IdFault;
use crate::key::{Digit, Key, KeyList};
use std::alloc::{AllocError, Global};

// The key with whose word the bytes begin.
fn key_at(bytes: &[u8]) -> Option<Key>
    ensures { result ≡ key_read_at bytes.now }
{
    match bytes {
        [b'#', ..] => Some(Key::Next),
        [b'*', b'#', ..] => Some(Key::Prev),
        [b'*', b'0', b'0', ..] => Some(Key::Reprint),
        [b'*', b'0', b'9', ..] => Some(Key::Update),
        [first, ..] if first.is_ascii_digit() => match Digit::new(*first - b'0') {
            Some(digit) => Some(Key::Route(digit)),
            None => None,
        },
        _ => None,
    }
}

// How many bytes the key's word has.
fn word_len(key: &Key) -> usize
    ensures { result ≡ length (key_word key.now) }
{
    match key {
        Key::Route(_) | Key::Next => 1,
        Key::Prev => 2,
        Key::Reprint | Key::Update => 3,
    }
}

/// The keys whose words, one after the other, are the text; the empty text is the empty list.
///
/// I3, `BadKey`, carries the byte offset at which the first word that can't be read begins: the length of the longest
/// beginning of the text that is made of words.
pub fn keys_read(alloc: Global, text: &str) -> Result<KeyList, IdFault>
    ensures { AreKeysRead text.now result }
{
    let bytes = text.as_bytes();
    let mut keys = Vec::new(alloc);
    let mut at = 0;
    while at < bytes.len() {
        let Some(key) = key_at(&bytes[at..]) else {
            return Err(IdFault::BadKey(at));
        };
        at += word_len(&key);
        keys.push(key).map_err(|_| IdFault::Memory)?;
    }
    Ok(KeyList::of(keys))
}

/// Writes a key's word after a text. If a growth is refused, nothing was written.
pub fn push_key(text: &mut Vec<u8>, key: Key) -> Result<(), AllocError>
    ensures { MatchResult result (λ _. text.new.items ≡ text.old.items ++ key_word key) (λ _. text.new.items ≡
        text.old.items) }
{
    match key {
        Key::Route(digit) => text.push(b'0' + digit.get())?,
        Key::Next => text.extend_from_slice(b"#")?,
        Key::Prev => text.extend_from_slice(b"*#")?,
        Key::Reprint => text.extend_from_slice(b"*00")?,
        Key::Update => text.extend_from_slice(b"*09")?,
    }
    Ok(())
}

/// Writes the words of the keys after a text, one after the other. If a growth is refused, the text is left as it was.
pub fn push_keys(text: &mut Vec<u8>, keys: &[Key]) -> Result<(), AllocError>
    ensures { MatchResult result (λ _. text.new.items ≡ text.old.items ++ keys_text keys.now) (λ _. text.new.items ≡
        text.old.items) }
{
    let kept = text.len();
    for key in keys {
        if let Err(refused) = push_key(text, *key) {
            text.truncate(kept);
            return Err(refused);
        }
    }
    Ok(())
}

/// The words of the keys, one after the other. `keys_read` gives the keys back.
pub fn keys_text(alloc: Global, keys: &KeyList) -> Result<Vec<u8>, AllocError>
    ensures text { IfOk result (λ text. text.items ≡ keys_text keys.now) }
    ensures read_again { IfOk result (λ text. AreKeysRead text.items (Ok keys.now)) }
{
    let mut text = Vec::new(alloc);
    push_keys(&mut text, keys.as_slice())?;
    Ok(text)
}

/// A list of keys has one text, a text is that of at most one list, and no word begins another.
pub fn keys_are_texts()
    ensures { KeysAreTexts }
{}
