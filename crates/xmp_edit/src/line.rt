//! The lines of a script, as they are spelled.
ghost use Rattle.std.specs.Prelude.{◌≡◌, IfOk};
ghost use Rattle.xmp_edit.specs.declared.action.Action.TheVariants.{SetText, SetUri, Append, Delete, MakeStruct};
ghost use Rattle.xmp_edit.specs.Lines.{ns_line, text_line, lone_line, array_line, insert_line, lang_line, qualify_line, formed, is_skipped, line_of, without_cr};

use crate::action::Action;
use crate::words::{
    Command, Three, Told, command_of, is_last_word, kind_of, three_told, word_told, worded,
};
use std::alloc::Global;
use xmp_paths::{is_prefix, place_of_number};
use xmp_tree::copy_text;
use xmp_values::{Memory, Text};

/// A line as it is spelled.
#[derive(Drop)]
pub enum Line<'s> {
    /// An empty line, or a remark.
    Skip,
    /// A prefix, and the namespace that it is bound to.
    Bind(Text<'s>, Text<'static>),
    /// A path, the name of a further qualifier, and what is to be done there.
    Change(Text<'s>, Option<Text<'s>>, Action),
}

/// A line without the one CR at its end.
pub fn without_cr(line: &[u8]) -> &[u8]
    ensures { result.now ≡ without_cr line.now }
{
    if line.is_empty() {
        return line;
    }
    let last = line.len() - 1;
    if line[last] == b'\r' {
        &line[..last]
    } else {
        line
    }
}

/// `ns PREFIX URI`
fn ns_line<'s>(alloc: Global, rest: &'s [u8]) -> Result<Option<Line<'s>>, Memory>
    ensures { IfOk result (λ line. line ≡ ns_line rest.now) }
{
    match word_told(alloc, rest)? {
        Some(Told { word, text }) => {
            if is_prefix(word.bytes()) && text.bytes().len() != 0 {
                Ok(Some(Line::Bind(word, text)))
            } else {
                Ok(None)
            }
        }
        None => Ok(None),
    }
}

/// `set PATH VALUE`
fn set_line<'s>(alloc: Global, rest: &'s [u8]) -> Result<Option<Line<'s>>, Memory>
    ensures { IfOk result (λ line. line ≡ text_line SetText rest.now) }
{
    match word_told(alloc, rest)? {
        Some(Told { word, text }) => Ok(Some(Line::Change(word, None, Action::SetText(text)))),
        None => Ok(None),
    }
}

/// `seturi PATH URI`
fn set_uri_line<'s>(alloc: Global, rest: &'s [u8]) -> Result<Option<Line<'s>>, Memory>
    ensures { IfOk result (λ line. line ≡ text_line SetUri rest.now) }
{
    match word_told(alloc, rest)? {
        Some(Told { word, text }) => Ok(Some(Line::Change(word, None, Action::SetUri(text)))),
        None => Ok(None),
    }
}

/// `append PATH VALUE`
fn append_line<'s>(alloc: Global, rest: &'s [u8]) -> Result<Option<Line<'s>>, Memory>
    ensures { IfOk result (λ line. line ≡ text_line Append rest.now) }
{
    match word_told(alloc, rest)? {
        Some(Told { word, text }) => Ok(Some(Line::Change(word, None, Action::Append(text)))),
        None => Ok(None),
    }
}

/// `delete PATH`
fn delete_line<'s>(rest: &'s [u8]) -> Option<Line<'s>>
    ensures { result ≡ lone_line Delete rest.now }
{
    if is_last_word(rest) {
        Some(Line::Change(Text::raw(rest), None, Action::Delete))
    } else {
        None
    }
}

/// `struct PATH`
fn struct_line<'s>(rest: &'s [u8]) -> Option<Line<'s>>
    ensures { result ≡ lone_line MakeStruct rest.now }
{
    if is_last_word(rest) {
        Some(Line::Change(Text::raw(rest), None, Action::MakeStruct))
    } else {
        None
    }
}

/// `array PATH KIND`
fn array_line<'s>(rest: &'s [u8]) -> Option<Line<'s>>
    ensures { result ≡ array_line rest.now }
{
    let (path, word) = worded(rest)?;
    let kind = kind_of(word)?;
    Some(Line::Change(Text::raw(path), None, Action::MakeArray(kind)))
}

/// `insert PATH N VALUE`
fn insert_line<'s>(alloc: Global, rest: &'s [u8]) -> Result<Option<Line<'s>>, Memory>
    ensures { IfOk result (λ line. line ≡ insert_line rest.now) }
{
    match three_told(alloc, rest)? {
        Some(Three { path, word, text }) => match place_of_number(word.bytes()) {
            Some(at) => Ok(Some(Line::Change(path, None, Action::Insert(at, text)))),
            None => Ok(None),
        },
        None => Ok(None),
    }
}

/// `setlang PATH TAG VALUE`
fn lang_line<'s>(alloc: Global, rest: &'s [u8]) -> Result<Option<Line<'s>>, Memory>
    ensures { IfOk result (λ line. line ≡ lang_line rest.now) }
{
    match three_told(alloc, rest)? {
        Some(Three { path, word, text }) => {
            let tag = copy_text(alloc, &word)?;
            Ok(Some(Line::Change(path, None, Action::SetLang(tag, text))))
        }
        None => Ok(None),
    }
}

/// `qualify PATH NAME VALUE`
fn qualify_line<'s>(alloc: Global, rest: &'s [u8]) -> Result<Option<Line<'s>>, Memory>
    ensures { IfOk result (λ line. line ≡ qualify_line rest.now) }
{
    match three_told(alloc, rest)? {
        Some(Three { path, word, text }) => {
            Ok(Some(Line::Change(path, Some(word), Action::SetText(text))))
        }
        None => Ok(None),
    }
}

/// The line of a command, by what stands after its word.
fn formed<'s>(
    alloc: Global,
    command: Option<Command>,
    rest: &'s [u8],
) -> Result<Option<Line<'s>>, Memory>
    ensures { IfOk result (λ line. line ≡ formed rest.now command) }
{
    match command {
        None => Ok(None),
        Some(Command::Ns) => ns_line(alloc, rest),
        Some(Command::Set) => set_line(alloc, rest),
        Some(Command::SetUri) => set_uri_line(alloc, rest),
        Some(Command::Delete) => Ok(delete_line(rest)),
        Some(Command::Array) => Ok(array_line(rest)),
        Some(Command::Struct) => Ok(struct_line(rest)),
        Some(Command::Append) => append_line(alloc, rest),
        Some(Command::Insert) => insert_line(alloc, rest),
        Some(Command::SetLang) => lang_line(alloc, rest),
        Some(Command::Qualify) => qualify_line(alloc, rest),
    }
}

/// Whether the line is empty or a remark.
fn is_skipped(line: &[u8]) -> bool
    ensures { result ≡ is_skipped line.now }
{
    match line {
        [] => true,
        [first, ..] => *first == b'#',
    }
}

/// A line as it is spelled; None exactly where it is of no form.
pub fn line_of<'s>(alloc: Global, line: &'s [u8]) -> Result<Option<Line<'s>>, Memory>
    ensures { IfOk result (λ spelled. spelled ≡ line_of line.now) }
{
    if is_skipped(line) {
        return Ok(Some(Line::Skip));
    }
    match worded(line) {
        Some((word, rest)) => formed(alloc, command_of(word), rest),
        None => Ok(None),
    }
}
