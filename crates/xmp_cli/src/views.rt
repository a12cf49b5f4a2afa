//! What a command shows of a file's meaning: the value at a path, or the lines of the tree.
ghost use Rattle.std.specs.Prelude.{◌≡◌, ◌++◌, codes, IfOk};
ghost use Rattle.std.specs.Option.{option_copied};
ghost use Rattle.xmp_write.specs.Prefixes.{prefixes};
ghost use Rattle.xmp_write.specs.ValueLines.{lines_at};
ghost use Rattle.xmp_cli.specs.Order.{get_text, shown_tree, place_text, value_text, whole};
ghost use Rattle.xmp_cli.specs.Steps.{view_of};
ghost use Rattle.xmp_values.specs.Stops.{fault_of, Gives};

use crate::faults::{no_such_place, path_fault};
use std::alloc::Global;
use xmp_paths::{Path, PathStop, find};
use xmp_rdf::Meaning;
use xmp_tree::{Shape, Tree, Value};
use xmp_values::{Bytes, FaultStop, Hints, Memory};
use xmp_write::{Form, Prefixes, lines, value_lines};

/// What is shown.
#[derive(Clone, Copy, Debug, PartialEq, Eq)]
pub enum View<'w> {
    /// The value at a path.
    Value(&'w str),
    /// The tree.
    Tree,
}

/// What a view shows of a meaning.
pub fn text_of(alloc: Global, meaning: &Meaning<'_>, view: View<'_>) -> Result<Bytes, FaultStop>
    ensures { Gives fault_of result (view_of view.entry meaning.now) }
{
    match view {
        View::Value(path) => value_at(alloc, meaning, path),
        View::Tree => Ok(tree_lines(alloc, meaning)?),
    }
}

/// The value at a path.
#[tactic(auto, unfolding(crate::specs::Order::get_text))]
fn value_at(alloc: Global, meaning: &Meaning<'_>, path: &str) -> Result<Bytes, FaultStop>
    ensures { Gives fault_of result (get_text path.now meaning.now) }
{
    let path = match Path::read(alloc, path.as_bytes(), &meaning.hints) {
        Ok(path) => path,
        Err(PathStop::Fault(rule)) => return Err(FaultStop::Fault(path_fault(rule))),
        Err(PathStop::Memory) => return Err(FaultStop::Memory),
    };
    value_text(alloc, meaning, &path, find(&meaning.tree, &path))
}

/// What stands at a path: a text, or the lines of another value.
fn value_text<'p>(
    alloc: Global,
    meaning: &Meaning<'p>,
    path: &Path,
    value: Option<&Value<'p>>,
) -> Result<Bytes, FaultStop>
    ensures { Gives fault_of result (value_text meaning.now path.now (option_copied value.entry)) }
{
    let Some(value) = value else {
        return Err(FaultStop::Fault(no_such_place()));
    };
    match &value.shape {
        Shape::Simple(text) | Shape::Uri(text) => Ok(text_line(alloc, text.bytes())?),
        Shape::Struct(_) | Shape::Array(_, _) => place_text(alloc, meaning, path),
    }
}

/// A text and LF, which are sent as one.
fn text_line(alloc: Global, text: &[u8]) -> Result<Bytes, Memory>
    ensures { IfOk result (λ line. line ≡ text.now ++ codes "\n") }
{
    let mut line = Vec::with_capacity(alloc, text.len() + 1)?;
    line.extend_from_slice(text)?;
    line.push(b'\n')?;
    Ok(Bytes::from_vec(line))
}

/// The lines of what stands at a path.
fn place_text(alloc: Global, meaning: &Meaning<'_>, path: &Path) -> Result<Bytes, FaultStop>
    ensures { Gives fault_of result (place_text meaning.now path.now) }
{
    Ok(place_lines(alloc, &meaning.tree, &meaning.hints, path)?)
}

/// The lines of what stands at a path of a tree.
fn place_lines(alloc: Global, tree: &Tree<'_>, hints: &Hints, path: &Path) -> Result<Bytes, Memory>
    ensures { IfOk result (λ text. text ≡ lines_at (prefixes tree.now hints.now (whole tree.now)) tree.now path.now) }
{
    let form = Form::whole(tree);
    let prefixes = Prefixes::of(alloc, tree, hints, &form)?;
    value_lines(alloc, tree, path, &prefixes)
}

/// The lines of the tree.
#[tactic(auto, unfolding(crate::specs::Order::shown_tree))]
fn tree_lines(alloc: Global, meaning: &Meaning<'_>) -> Result<Bytes, Memory>
    ensures { IfOk result (λ text. shown_tree meaning.now ≡ Ok text) }
{
    let form = Form::whole(&meaning.tree);
    let prefixes = Prefixes::of(alloc, &meaning.tree, &meaning.hints, &form)?;
    lines(alloc, &meaning.tree, &prefixes)
}
