//! The words of a script's line.
ghost use Rattle.std.specs.Prelude.{◌≡◌, ◌≤◌, length, option_map, IfOk};
ghost use Rattle.std.specs.List.{position_or_len};
ghost use Rattle.xmp_edit.specs.Lines.{escape_of, unescaped, is_space, worded, is_last_word, told, three, command_of, kind_of};

use std::alloc::Global;
use xmp_tree::Kind;
use xmp_values::{Bytes, Memory, Text};

/// A word, and a text after it.
#[derive(Drop)]
pub struct Told<'s> {
    pub word: Text<'s>,
    pub text: Text<'static>,
}

/// A path, a word, and a text.
#[derive(Drop)]
pub struct Three<'s> {
    pub path: Text<'s>,
    pub word: Text<'s>,
    pub text: Text<'static>,
}

/// The first word of a line.
#[derive(Clone, Copy, Debug, PartialEq, Eq)]
pub enum Command {
    Ns,
    Set,
    SetUri,
    Delete,
    Array,
    Struct,
    Append,
    Insert,
    SetLang,
    Qualify,
}

/// What a byte after `\` stands for.
fn escape_of(byte: u8) -> Option<u8>
    ensures { result ≡ escape_of byte }
{
    match byte {
        b'\\' => Some(b'\\'),
        b'n' => Some(b'\n'),
        b'r' => Some(b'\r'),
        b't' => Some(b'\t'),
        _ => None,
    }
}

/// What a text with escapes tells; None where a `\` is no escape.
pub fn unescaped(alloc: Global, text: &[u8]) -> Result<Option<Bytes>, Memory>
    ensures { IfOk result (λ bytes. bytes ≡ unescaped text.now) }
{
    let mut bytes = Bytes::new(alloc);
    let mut is_escape = false;
    for byte in text {
        if is_escape {
            let Some(told) = escape_of(*byte) else {
                return Ok(None);
            };
            bytes.push(told)?;
            is_escape = false;
        } else if *byte == b'\\' {
            is_escape = true;
        } else {
            bytes.push(*byte)?;
        }
    }
    if is_escape {
        return Ok(None);
    }
    Ok(Some(bytes))
}

/// The place of the first space, or the length where there is none.
fn space_at(text: &[u8]) -> usize
    ensures first { result ≡ position_or_len is_space text.now }
    ensures within { result ≤ length text.now }
{
    for at in 0..text.len() {
        if text[at] == b' ' {
            return at;
        }
    }
    text.len()
}

/// A word, and what stands after its space; None where the word is empty or has no space after it.
pub fn worded(text: &[u8]) -> Option<(&[u8], &[u8])>
    ensures { option_map (λ w. (w.0.now, w.1.now)) result ≡ worded text.now }
{
    let space = space_at(text);
    if 0 < space && space < text.len() {
        Some((&text[..space], &text[space + 1..]))
    } else {
        None
    }
}

/// Whether the text is one word.
pub fn is_last_word(text: &[u8]) -> bool
    ensures { result ≡ is_last_word text.now }
{
    0 < text.len() && space_at(text) == text.len()
}

/// A word, and after its space a text with escapes.
pub fn word_told<'s>(alloc: Global, text: &'s [u8]) -> Result<Option<Told<'s>>, Memory>
    ensures { IfOk result (λ t. t ≡ told text.now) }
{
    let Some((word, rest)) = worded(text) else {
        return Ok(None);
    };
    let word = Text::raw(word);
    match unescaped(alloc, rest)? {
        Some(bytes) => {
            let text = Text::own(alloc, bytes)?;
            Ok(Some(Told { word, text }))
        }
        None => Ok(None),
    }
}

/// A path, a word, and a text with escapes.
pub fn three_told<'s>(alloc: Global, text: &'s [u8]) -> Result<Option<Three<'s>>, Memory>
    ensures { IfOk result (λ t. t ≡ three text.now) }
{
    let Some((path, rest)) = worded(text) else {
        return Ok(None);
    };
    let path = Text::raw(path);
    match word_told(alloc, rest)? {
        Some(Told { word, text }) => Ok(Some(Three { path, word, text })),
        None => Ok(None),
    }
}

/// The kind of an array by its word.
pub fn kind_of(word: &[u8]) -> Option<Kind>
    ensures { result ≡ kind_of word.now }
{
    if word == b"bag".as_slice() {
        Some(Kind::Bag)
    } else if word == b"seq".as_slice() {
        Some(Kind::Seq)
    } else if word == b"alt".as_slice() {
        Some(Kind::Alt)
    } else {
        None
    }
}

/// The command of a first word.
pub fn command_of(word: &[u8]) -> Option<Command>
    ensures { result ≡ command_of word.now }
{
    if word == b"ns".as_slice() {
        Some(Command::Ns)
    } else if word == b"set".as_slice() {
        Some(Command::Set)
    } else if word == b"seturi".as_slice() {
        Some(Command::SetUri)
    } else if word == b"delete".as_slice() {
        Some(Command::Delete)
    } else if word == b"array".as_slice() {
        Some(Command::Array)
    } else if word == b"struct".as_slice() {
        Some(Command::Struct)
    } else if word == b"append".as_slice() {
        Some(Command::Append)
    } else if word == b"insert".as_slice() {
        Some(Command::Insert)
    } else if word == b"setlang".as_slice() {
        Some(Command::SetLang)
    } else if word == b"qualify".as_slice() {
        Some(Command::Qualify)
    } else {
        None
    }
}
