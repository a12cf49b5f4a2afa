//! The lines that show a tree: `PATH KIND REST`, each ended by LF.
ghost use Rattle.std.specs.Prelude.{◌≡◌, ◌++◌, ◌∷◌, [], codes, decimal, unwrap_or, IfOk, IsSome, OnOk};
ghost use Rattle.std.specs.List.{flat_map};
ghost use Rattle.std.specs.Option.{option_copied};
ghost use Rattle.xmp_tree.specs.declared.nested.Shape.{out-Shape};
ghost use Rattle.xmp_write.specs.Writing.{Adds, items_from};
ghost use Rattle.xmp_write.specs.Prefixes.{spelled};
ghost use Rattle.xmp_paths.specs.Places.{child};
ghost use Rattle.xmp_write.specs.ValueLines.{step_path, lines_after, lines_at};
ghost use Rattle.xmp_write.specs.Lines.{shown, shown_byte, shape_word, kind_word, value_lines, shape_lines, member_lines, item_path, lines};

use crate::prefixes::Prefixes;
use itoa::Buffer;
use std::alloc::Global;
use xmp_paths::{Path, Step, child, items_of};
use xmp_tree::{Kind, Member, Shape, Tree, Value, tag_place, value_named};
use xmp_values::{Bytes, Memory, Name};

/// The lines written so far, and the path of what is written next. It is one buffer, cut back on
/// the way out of a value.
#[derive(Drop)]
struct Writer {
    text: Vec<u8>,
    path: Vec<u8>,
}

/// What stands for a byte on a line; none where the byte stands for itself.
fn escape(byte: u8) -> Option<&'static [u8]>
    ensures { unwrap_or (option_copied result) (byte ∷ []) ≡ shown_byte byte }
{
    match byte {
        b'\\' => Some(b"\\\\"),
        b'\n' => Some(b"\\n"),
        b'\r' => Some(b"\\r"),
        b'\t' => Some(b"\\t"),
        _ => None,
    }
}

/// Puts a text at the end, so that it stays on its line. What stands for itself is put there by
/// runs, each up to the next byte that doesn't.
fn push_shown(out: &mut Vec<u8>, text: &[u8]) -> Result<(), Memory>
    ensures { OnOk result (out.new.items ≡ out.old.items ++ shown text.now) }
{
    let mut from = 0;
    for at in 0..text.len() {
        if let Some(escape) = escape(text[at]) {
            out.extend_from_slice(&text[from..at])?;
            out.extend_from_slice(escape)?;
            from = at + 1;
        }
    }
    out.extend_from_slice(&text[from..])?;
    Ok(())
}

/// Puts a number in decimal at the end.
fn push_number(out: &mut Vec<u8>, number: usize) -> Result<(), Memory>
    ensures { OnOk result (out.new.items ≡ out.old.items ++ decimal number) }
{
    let mut digits = Buffer::new();
    out.extend_from_slice(digits.format(number).as_bytes())?;
    Ok(())
}

fn kind_word(kind: Kind) -> &'static [u8]
    ensures { result.now ≡ kind_word kind }
{
    match kind {
        Kind::Bag => b"bag ",
        Kind::Seq => b"seq ",
        Kind::Alt => b"alt ",
    }
}

/// Puts what a value is at the end: its kind, and its text or the number of its parts.
fn push_shape_word(out: &mut Vec<u8>, shape: &Shape<'_>) -> Result<(), Memory>
    ensures { OnOk result (out.new.items ≡ out.old.items ++ shape_word (out-Shape shape.now)) }
{
    match shape {
        Shape::Simple(text) => {
            out.extend_from_slice(b"text ")?;
            push_shown(out, text.bytes())
        }
        Shape::Uri(text) => {
            out.extend_from_slice(b"uri ")?;
            push_shown(out, text.bytes())
        }
        Shape::Struct(fields) => {
            out.extend_from_slice(b"struct ")?;
            push_number(out, fields.len())
        }
        Shape::Array(kind, items) => {
            out.extend_from_slice(kind_word(*kind))?;
            push_number(out, items.len())
        }
    }
}

/// Puts a name with its prefix at the end.
fn push_name(out: &mut Vec<u8>, prefixes: &Prefixes<'_>, name: &Name<'_>) -> Result<(), Memory>
    ensures { OnOk result (out.new.items ≡ out.old.items ++ spelled prefixes.now name.now) }
{
    out.extend_from_slice(prefixes.prefix_of(name.space.bytes()))?;
    out.extend_from_slice(b":")?;
    out.extend_from_slice(name.local.bytes())?;
    Ok(())
}

impl Writer {
    /// Puts the line of a value at the path.
    fn push_line(&mut self, shape: &Shape<'_>) -> Result<(), Memory>
        ensures { OnOk result (Adds self.old self.new (self.old.path.items ++ codes " " ++ shape_word (out-Shape shape.now) ++ codes "\n")) }
    {
        self.text.extend_from_slice(self.path.as_slice())?;
        self.text.extend_from_slice(b" ")?;
        push_shape_word(&mut self.text, shape)?;
        self.text.extend_from_slice(b"\n")?;
        Ok(())
    }

    /// Goes on to a name after the path.
    fn enter(&mut self, prefixes: &Prefixes<'_>, name: &Name<'_>) -> Result<(), Memory>
        ensures text { self.new.text.items ≡ self.old.text.items }
        ensures path { OnOk result (self.new.path.items ≡ self.old.path.items ++ spelled prefixes.now name.now) }
    {
        push_name(&mut self.path, prefixes, name)
    }

    /// Goes on to an item after the path.
    fn enter_item(&mut self, number: usize) -> Result<(), Memory>
        ensures text { self.new.text.items ≡ self.old.text.items }
        ensures path { OnOk result (self.new.path.items ≡ item_path self.old.path.items number) }
    {
        self.path.extend_from_slice(b"[")?;
        push_number(&mut self.path, number)?;
        self.path.extend_from_slice(b"]")?;
        Ok(())
    }
}

/// Puts the lines of a value at the path: its own, then those of its qualifiers, then those of its
/// fields or items.
#[cycle(lines)]
fn push_value(writer: &mut Writer, prefixes: &Prefixes<'_>, value: &Value<'_>) -> Result<(), Memory>
    ensures { OnOk result (Adds writer.old writer.new (value_lines prefixes.now writer.old.path.items value.now)) }
{
    writer.push_line(&value.shape)?;
    push_members(writer, prefixes, b"/?", value.quals.as_slice())?;
    push_shape(writer, prefixes, &value.shape)
}

#[cycle(lines)]
fn push_shape(writer: &mut Writer, prefixes: &Prefixes<'_>, shape: &Shape<'_>) -> Result<(), Memory>
    ensures { OnOk result (Adds writer.old writer.new (shape_lines prefixes.now writer.old.path.items shape.now)) }
{
    match shape {
        Shape::Simple(_) | Shape::Uri(_) => Ok(()),
        Shape::Struct(fields) => push_members(writer, prefixes, b"/", fields.as_slice()),
        Shape::Array(_, items) => push_items(writer, prefixes, items.as_slice()),
    }
}

/// Puts the lines of members whose names stand after the path and a separator.
#[cycle(lines)]
fn push_members(
    writer: &mut Writer,
    prefixes: &Prefixes<'_>,
    separator: &[u8],
    members: &[Member<'_>],
) -> Result<(), Memory>
    ensures { OnOk result (Adds writer.old writer.new (flat_map (member_lines prefixes.now (writer.old.path.items ++ separator.now)) members.now)) }
{
    let len = writer.path.len();
    writer.path.extend_from_slice(separator)?;
    for member in members {
        push_member(writer, prefixes, member)?;
    }
    writer.path.truncate(len);
    Ok(())
}

#[cycle(lines)]
fn push_member(
    writer: &mut Writer,
    prefixes: &Prefixes<'_>,
    member: &Member<'_>,
) -> Result<(), Memory>
    ensures { OnOk result (Adds writer.old writer.new (member_lines prefixes.now writer.old.path.items member.now)) }
{
    let len = writer.path.len();
    writer.enter(prefixes, &member.name)?;
    push_value(writer, prefixes, &member.value)?;
    writer.path.truncate(len);
    Ok(())
}

#[cycle(lines)]
fn push_items(
    writer: &mut Writer,
    prefixes: &Prefixes<'_>,
    items: &[Value<'_>],
) -> Result<(), Memory>
    ensures { OnOk result (Adds writer.old writer.new (items_from prefixes.now writer.old.path.items 1 items.now)) }
{
    for at in 0..items.len() {
        push_item(writer, prefixes, at + 1, &items[at])?;
    }
    Ok(())
}

#[cycle(lines)]
fn push_item(
    writer: &mut Writer,
    prefixes: &Prefixes<'_>,
    number: usize,
    item: &Value<'_>,
) -> Result<(), Memory>
    ensures { OnOk result (Adds writer.old writer.new (value_lines prefixes.now (item_path writer.old.path.items number) item.now)) }
{
    let len = writer.path.len();
    writer.enter_item(number)?;
    push_value(writer, prefixes, item)?;
    writer.path.truncate(len);
    Ok(())
}

/// The lines of a tree with the prefixes of its text: `about VALUE`, then for each property, and
/// for each of its parts, `PATH KIND REST`. With the prefixes of the tree and of the form of every
/// property without a note each name has its prefix.
pub fn lines(alloc: Global, tree: &Tree<'_>, prefixes: &Prefixes<'_>) -> Result<Bytes, Memory>
    ensures { IfOk result (λ bytes. bytes ≡ lines prefixes.now tree.now) }
{
    let mut writer = Writer {
        text: Vec::from_slice(alloc, b"about ")?,
        path: Vec::new(alloc),
    };
    push_shown(&mut writer.text, tree.about.bytes())?;
    writer.text.extend_from_slice(b"\n")?;
    push_members(&mut writer, prefixes, b"", tree.props.as_slice())?;
    Ok(Bytes::from_vec(writer.text))
}

impl Writer {
    /// Goes on to a step after the path, from a value in which it leads to one.
    fn step(
        &mut self,
        prefixes: &Prefixes<'_>,
        step: &Step,
        value: &Value<'_>,
    ) -> Result<(), Memory>
        requires { IsSome (child step.now value.now) }
        ensures text { self.new.text.items ≡ self.old.text.items }
        ensures path { OnOk result (self.new.path.items ≡ step_path prefixes.now self.old.path.items step.now value.now) }
    {
        match step {
            Step::Field(name) => {
                self.path.extend_from_slice(b"/")?;
                self.enter(prefixes, name)
            }
            Step::Qualifier(name) => {
                self.path.extend_from_slice(b"/?")?;
                self.enter(prefixes, name)
            }
            Step::Item(at) => self.enter_item((*at).min(items_of(value).len()) + 1),
            Step::Tag(tag) => {
                let at = tag_place(items_of(value), tag.bytes()).unwrap_or(0);
                self.enter_item(at + 1)
            }
        }
    }
}

/// Puts the lines of what steps lead to from a value at the path.
fn push_after(
    writer: &mut Writer,
    prefixes: &Prefixes<'_>,
    steps: &[Step],
    value: &Value<'_>,
) -> Result<(), Memory>
    ensures { OnOk result (writer.new.text.items ≡ writer.old.text.items ++ lines_after prefixes.now writer.old.path.items steps.now value.now) }
{
    match steps {
        [] => push_value(writer, prefixes, value),
        [step, rest @ ..] => match child(step, value) {
            Some(held) => {
                writer.step(prefixes, step, value)?;
                push_after(writer, prefixes, rest, held)
            }
            None => Ok(()),
        },
    }
}

/// The lines of what stands at a path of a tree, its own line first; none where nothing stands
/// there. A tag is written as the number of its item. With the prefixes of the tree and of the form
/// of every property without a note each name has its prefix.
pub fn value_lines(
    alloc: Global,
    tree: &Tree<'_>,
    at: &Path,
    prefixes: &Prefixes<'_>,
) -> Result<Bytes, Memory>
    ensures { IfOk result (λ bytes. bytes ≡ lines_at prefixes.now tree.now at.now) }
{
    let mut writer = Writer {
        text: Vec::new(alloc),
        path: Vec::new(alloc),
    };
    if let Some(value) = value_named(tree.props.as_slice(), at.name()) {
        writer.enter(prefixes, at.name())?;
        push_after(&mut writer, prefixes, at.steps(), value)?;
    }
    Ok(Bytes::from_vec(writer.text))
}
