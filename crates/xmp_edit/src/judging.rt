//! What a line gives, or the rule that it breaks: of those that hold, the first in the order BadPath,
//! UnknownPrefix, Reserved, BadText, BadTag, EditDeep.
ghost use Rattle.std.specs.Prelude.{◌≡◌, length, IsTrue, IfOk, IfSome};
ghost use Rattle.xmp_values.specs.Stops.{Gives, rule_of};
ghost use Rattle.xmp_values.specs.Hints.{IsValidHint};
ghost use Rattle.xmp_paths.specs.Grammar.{is_name};
ghost use Rattle.xmp_tree.specs.Wf.{lang_name, type_name};
ghost use Rattle.xmp_edit.specs.Allowed.{IsAllowed, IsWell, IsFormed, last_step, levels_of};
ghost use Rattle.xmp_edit.specs.Judging.{is_chars, is_taken, binding, spelling_of, is_qualifier, suits_type, suits_lang, may_end, has_chars, has_tags, checked, edit_of, given};

use crate::action::Action;
use crate::edit::Edit;
use crate::given::Given;
use crate::line::Line;
use known_prefixes::{begins_xml, is_known};
use std::alloc::Global;
use xmp_paths::{
    Namespaces, Path, SpelledStep, Spelling, Step, is_lang_tag, prefixed_name, spelled,
};
use xmp_tree::{is_lang, is_type};
use xmp_values::{Bytes, Hint, Memory, Rule, RuleStop, Text, is_char_text, is_xmlns_namespace};

/// Whether the bytes are the UTF-8 of Chars.
fn is_chars(bytes: &[u8]) -> bool
    ensures { result ≡ is_chars bytes.now }
{
    is_char_text(bytes)
}

/// Whether no line may bind the prefix: it is known, it begins with `xml`, or a line bound it.
fn is_taken(spaces: &Namespaces<'_>, prefix: &[u8]) -> bool
    ensures { result ≡ is_taken spaces.now prefix.now }
{
    is_known(prefix) || begins_xml(prefix) || spaces.is_bound(prefix)
}

/// What a line that binds gives.
fn binding(
    alloc: Global,
    spaces: &Namespaces<'_>,
    prefix: &Text<'_>,
    uri: &Text<'_>,
) -> Result<Hint, RuleStop>
    requires named { IsTrue (is_name prefix.now) }
    requires some { length uri.now ≡ 0 → ⊥ }
    ensures gives { Gives rule_of result (binding spaces.now prefix.now uri.now) }
    ensures valid { IfOk result (λ h. IsValidHint h) }
{
    if is_taken(spaces, prefix.bytes()) || is_xmlns_namespace(uri.bytes()) {
        return Err(RuleStop::Fault(Rule::Reserved));
    }
    if !is_chars(uri.bytes()) {
        return Err(RuleStop::Fault(Rule::BadText));
    }
    let space = Bytes::from_slice(alloc, uri.bytes())?;
    let prefix = Bytes::from_slice(alloc, prefix.bytes())?;
    Ok(Hint { space, prefix })
}

/// How a path is spelled, with one qualifier more if a name is given; None where one isn't of the
/// grammar.
fn spelling_of<'s>(
    alloc: Global,
    path: &'s [u8],
    qualifier: &'s Option<Text<'s>>,
) -> Result<Option<Spelling<'s>>, Memory>
    ensures { IfOk result (λ s. s ≡ spelling_of path.now qualifier.now) }
{
    let Some(spelling) = spelled(alloc, path)? else {
        return Ok(None);
    };
    let Some(name) = qualifier else {
        return Ok(Some(spelling));
    };
    let Some(name) = prefixed_name(name.bytes()) else {
        return Ok(None);
    };
    let Spelling { first, steps } = spelling;
    let mut steps = steps;
    steps.push(SpelledStep::Qualifier(name))?;
    Ok(Some(Spelling { first, steps }))
}

#[tactic(auto, unfolding(xmp_tree::specs::Places::same_name, xmp_tree::specs::Wf::lang_name))]
fn is_lang_step(step: &Step) -> bool
    ensures { result ≡ is_qualifier lang_name step.now }
{
    match step {
        Step::Qualifier(name) => is_lang(name),
        _ => false,
    }
}

#[tactic(auto, unfolding(xmp_tree::specs::Places::same_name, xmp_tree::specs::Wf::type_name))]
fn is_type_step(step: &Step) -> bool
    ensures { result ≡ is_qualifier type_name step.now }
{
    match step {
        Step::Qualifier(name) => is_type(name),
        _ => false,
    }
}

/// Whether the path ends with the qualifier `xml:lang`.
fn ends_with_lang(path: &Path) -> bool
    ensures { result ≡ is_qualifier lang_name (last_step path.now) }
{
    let mut ends = false;
    for step in path.steps() {
        ends = is_lang_step(step);
    }
    ends
}

/// Whether the path ends with the qualifier `rdf:type`.
fn ends_with_type(path: &Path) -> bool
    ensures { result ≡ is_qualifier type_name (last_step path.now) }
{
    let mut ends = false;
    for step in path.steps() {
        ends = is_type_step(step);
    }
    ends
}

fn suits_type(action: &Action) -> bool
    ensures { result ≡ suits_type action.now }
{
    match action {
        Action::SetUri(_) | Action::Delete => true,
        _ => false,
    }
}

fn suits_lang(action: &Action) -> bool
    ensures { result ≡ suits_lang action.now }
{
    match action {
        Action::SetText(_) | Action::Delete => true,
        _ => false,
    }
}

/// Whether the action may be done at the end of the path.
fn may_end(path: &Path, action: &Action) -> bool
    ensures { result ≡ may_end (last_step path.now) action.now }
{
    (suits_type(action) || !ends_with_type(path)) && (suits_lang(action) || !ends_with_lang(path))
}

fn has_chars(action: &Action) -> bool
    ensures { result ≡ has_chars action.now }
{
    match action {
        Action::SetText(text) => is_chars(text.bytes()),
        Action::SetUri(uri) => is_chars(uri.bytes()),
        Action::Append(text) => is_chars(text.bytes()),
        Action::Insert(_, text) => is_chars(text.bytes()),
        Action::SetLang(_, text) => is_chars(text.bytes()),
        Action::Delete | Action::MakeArray(_) | Action::MakeStruct => true,
    }
}

fn has_tags(path: &Path, action: &Action) -> bool
    ensures { result ≡ has_tags (last_step path.now) action.now }
{
    match action {
        Action::SetText(text) => !ends_with_lang(path) || is_lang_tag(text.bytes()),
        Action::SetLang(tag, _) => is_lang_tag(tag.bytes()),
        _ => true,
    }
}

/// How many levels an action adds below its place.
fn levels_of(action: &Action) -> usize
    ensures { result ≡ levels_of action.now }
{
    match action {
        Action::Append(_) | Action::Insert(_, _) => 1,
        Action::SetLang(_, _) => 2,
        _ => 0,
    }
}

/// An edit at a path, if it is allowed.
fn checked(line: u64, action: Action, path: Path) -> Result<Edit, RuleStop>
    ensures gives { Gives rule_of result (checked line action path) }
    ensures allowed { IfOk result (λ e. IsAllowed e) }
{
    if !may_end(&path, &action) {
        return Err(RuleStop::Fault(Rule::Reserved));
    }
    if !has_chars(&action) {
        return Err(RuleStop::Fault(Rule::BadText));
    }
    if !has_tags(&path, &action) {
        return Err(RuleStop::Fault(Rule::BadLanguageTag));
    }
    if path.steps().len() + levels_of(&action) > 23 {
        return Err(RuleStop::Fault(Rule::EditDeep));
    }
    Ok(Edit { line, path, action })
}

/// The edit of a line: a path, the name of a further qualifier, and what is to be done there.
pub fn edit_of(
    alloc: Global,
    spaces: &Namespaces<'_>,
    line: u64,
    path: &[u8],
    qualifier: &Option<Text<'_>>,
    action: Action,
) -> Result<Edit, RuleStop>
    ensures gives { Gives rule_of result (edit_of spaces.now line path.now qualifier.now action) }
    ensures allowed { IfOk result (λ e. IsAllowed e) }
{
    let Some(spelling) = spelling_of(alloc, path, qualifier)? else {
        return Err(RuleStop::Fault(Rule::BadPath));
    };
    let path = Path::named(alloc, spaces, &spelling)?;
    checked(line, action, path)
}

/// What a line gives, or the rule that it breaks.
pub fn given(
    alloc: Global,
    spaces: &Namespaces<'_>,
    number: u64,
    line: Option<Line<'_>>,
) -> Result<Given, RuleStop>
    requires { IfSome line IsFormed }
    ensures gives { Gives rule_of result (given spaces.now number line.entry) }
    ensures well { IfOk result (λ g. IsWell g) }
{
    match line {
        None => Err(RuleStop::Fault(Rule::BadLine)),
        Some(Line::Skip) => Ok(Given::Nothing),
        Some(Line::Bind(prefix, uri)) => Ok(Given::Bound(binding(alloc, spaces, &prefix, &uri)?)),
        Some(Line::Change(path, qualifier, action)) => {
            let edit = edit_of(alloc, spaces, number, path.bytes(), &qualifier, action)?;
            Ok(Given::Made(edit))
        }
    }
}
