//! What a value of each form becomes where texts are preferred to it.
ghost use Rattle.std.specs.Prelude.{◌≡◌, [], ◌∷◌, IfOk, map};
ghost use Rattle.std.specs.Option.{option_copied};
ghost use Rattle.xmp_tree.specs.declared.nested.Shape.{Array, out-Shape};
ghost use Rattle.xmp_tree.specs.declared.nested.Value.{out-Value};
ghost use Rattle.xmp_tree.specs.Parts.{simple, value};
ghost use Rattle.xmp_tree.specs.Places.{tag_place};
ghost use Rattle.xmp_tree.specs.Wf.{lang_name};
ghost use Rattle.mwg_rules.specs.Forms.{are_texts, with_texts, changed, default_item, default_tag, first_text, in_alternatives, is_already, is_list, is_spoken, is_spoken_at, is_text, is_text_at, made, same_kind, stays_date, with_default};
ghost use Rattle.mwg_rules.specs.declared.properties.Form.TheVariants.{Language};

use crate::properties::Form;
use field_values::date_stays;
use std::alloc::Global;
use xmp_tree::{Items, Kind, Member, Members, Shape, Value, refill_item, tag_place, text_of};
use xmp_values::{Bytes, Memory, Name, Text};

/// The language of a text that suits every reader (ISO 16684-1, 8.2.2.4).
const DEFAULT_TAG: &[u8] = b"x-default";

/// What a property becomes by preferred texts: it stays where it says them already. One that isn't
/// there is made.
pub fn with_texts<'p>(
    alloc: Global,
    form: Form,
    texts: &[Bytes],
    there: Option<Value<'p>>,
) -> Result<Value<'p>, Memory>
    ensures { IfOk result (λ v. v ≡ with_texts form texts.now there.entry) }
{
    match there {
        Some(value) => {
            if is_already(form, texts, &value) {
                Ok(value)
            } else {
                changed(alloc, form, texts, value)
            }
        }
        None => made(alloc, form, texts),
    }
}

/// Whether a value says the texts already. Of qualifiers, the language of an item alone counts.
#[tactic(auto, unfolding(crate::specs::Forms::is_already))]
pub fn is_already(form: Form, texts: &[Bytes], value: &Value<'_>) -> bool
    ensures { result ≡ is_already form texts.now value.now }
{
    match form {
        Form::Text => is_text(first_text(texts), value),
        Form::Date => stays_date(first_text(texts), text_of(value)),
        Form::Bag => is_list(Kind::Bag, texts, &value.shape),
        Form::Seq => is_list(Kind::Seq, texts, &value.shape),
        Form::Language => is_spoken(first_text(texts), &value.shape),
    }
}

/// The one text of a value that is no list.
fn first_text(texts: &[Bytes]) -> &[u8]
    ensures { result.now ≡ first_text texts.now }
{
    match texts {
        [text, ..] => text.as_slice(),
        [] => b"",
    }
}

/// Whether a value is a simple text with these bytes.
fn is_text(text: &[u8], value: &Value<'_>) -> bool
    ensures { result ≡ is_text text.now value.now }
{
    match text_of(value) {
        Some(there) => there == text,
        None => false,
    }
}

/// Whether an XMP date stays beside a preferred one: it is the same, or the same but for what the
/// preferred one doesn't tell.
fn stays_date(text: &[u8], there: Option<&[u8]>) -> bool
    ensures { result ≡ stays_date text.now (option_copied there.entry) }
{
    match there {
        Some(there) => there == text || date_stays(there, text),
        None => false,
    }
}

fn same_kind(a: Kind, b: Kind) -> bool
    ensures { result ≡ same_kind a b }
{
    match (a, b) {
        (Kind::Bag, Kind::Bag) => true,
        (Kind::Seq, Kind::Seq) => true,
        (Kind::Alt, Kind::Alt) => true,
        _ => false,
    }
}

/// Whether a shape is an array of the kind, of just these texts.
fn is_list(kind: Kind, texts: &[Bytes], shape: &Shape<'_>) -> bool
    ensures { result ≡ is_list kind texts.now (out-Shape shape.now) }
{
    match shape {
        Shape::Array(there, items) => {
            same_kind(*there, kind) && are_texts(texts, items.as_slice())
        }
        _ => false,
    }
}

/// Whether items are just these texts.
fn are_texts(texts: &[Bytes], items: &[Value<'_>]) -> bool
    ensures { result ≡ are_texts texts.now items.now }
{
    if texts.len() != items.len() {
        return false;
    }
    for i in 0..texts.len() {
        if !is_text(texts[i].as_slice(), &items[i]) {
            return false;
        }
    }
    true
}

/// Whether a shape is alternatives whose first item of the default language is the text.
fn is_spoken(text: &[u8], shape: &Shape<'_>) -> bool
    ensures { result ≡ is_spoken text.now (out-Shape shape.now) }
{
    match shape {
        Shape::Array(there, items) => {
            same_kind(*there, Kind::Alt) && is_spoken_in(text, items.as_slice())
        }
        _ => false,
    }
}

/// Whether the first item of the default language is the text.
fn is_spoken_in(text: &[u8], items: &[Value<'_>]) -> bool
    ensures { result ≡ is_spoken_at text.now items.now (tag_place default_tag items.now) }
{
    match tag_place(items, DEFAULT_TAG) {
        Some(at) => is_text_at(text, items.get(at)),
        None => false,
    }
}

/// Whether a value is there, and is the text.
fn is_text_at(text: &[u8], value: Option<&Value<'_>>) -> bool
    ensures { result ≡ is_text_at text.now (option_copied value.entry) }
{
    match value {
        Some(value) => is_text(text, value),
        None => false,
    }
}

/// A value in place of one that doesn't say the texts: alternatives stay, with the text among them;
/// any other value is replaced, and loses its qualifiers.
#[tactic(auto, unfolding(crate::specs::Forms::changed))]
fn changed<'p>(
    alloc: Global,
    form: Form,
    texts: &[Bytes],
    value: Value<'p>,
) -> Result<Value<'p>, Memory>
    ensures { IfOk result (λ v. v ≡ changed form texts.now value.entry) }
{
    match form {
        Form::Language => in_alternatives(alloc, first_text(texts), value),
        _ => made(alloc, form, texts),
    }
}

/// A text of the default language among the alternatives of a value, if it has alternatives.
fn in_alternatives<'p>(alloc: Global, text: &[u8], value: Value<'p>) -> Result<Value<'p>, Memory>
    ensures { IfOk result (λ v. v ≡ in_alternatives text.now (out-Value value.entry).quals (out-Shape (out-Value value.entry).shape)) }
{
    let Value { shape, quals } = value;
    match shape {
        Shape::Array(there, items) => {
            if same_kind(there, Kind::Alt) {
                let items = with_default(alloc, text, items)?;
                let shape = Shape::Array(Kind::Alt, items);
                Ok(Value { shape, quals })
            } else {
                spoken(alloc, text)
            }
        }
        _ => spoken(alloc, text),
    }
}

/// Items whose first of the default language becomes the text, or with one more in front.
fn with_default<'p>(alloc: Global, text: &[u8], items: Items<'p>) -> Result<Items<'p>, Memory>
    ensures { IfOk result (λ vs. vs ≡ with_default text.now items.entry (tag_place default_tag items.entry)) }
{
    let mut items = items;
    let item = default_item(alloc, text)?;
    match tag_place(items.as_slice(), DEFAULT_TAG) {
        Some(at) => Ok(refill_item(items, at, Some(item))),
        None => {
            items.insert(0, item)?;
            Ok(items)
        }
    }
}

/// The value of the texts, without qualifiers.
#[tactic(auto, unfolding(crate::specs::Forms::made))]
fn made<'p>(alloc: Global, form: Form, texts: &[Bytes]) -> Result<Value<'p>, Memory>
    ensures { IfOk result (λ v. v ≡ made form texts.now) }
{
    match form {
        Form::Text | Form::Date => simple(alloc, first_text(texts)),
        Form::Bag => Ok(array(alloc, Kind::Bag, simples(alloc, texts)?)),
        Form::Seq => Ok(array(alloc, Kind::Seq, simples(alloc, texts)?)),
        Form::Language => spoken(alloc, first_text(texts)),
    }
}

/// A text that owns a copy of bytes.
fn owned<'p>(alloc: Global, text: &[u8]) -> Result<Text<'p>, Memory>
    ensures { IfOk result (λ t. t ≡ text.now) }
{
    Text::own(alloc, Bytes::from_slice(alloc, text)?)
}

/// A simple text with no qualifier.
fn simple<'p>(alloc: Global, text: &[u8]) -> Result<Value<'p>, Memory>
    ensures { IfOk result (λ v. v ≡ simple text.now) }
{
    let text = owned(alloc, text)?;
    Ok(Value {
        shape: Shape::Simple(text),
        quals: Members::new(alloc),
    })
}

/// Simple texts with no qualifiers.
fn simples<'p>(alloc: Global, texts: &[Bytes]) -> Result<Items<'p>, Memory>
    ensures { IfOk result (λ vs. vs ≡ map simple texts.now) }
{
    let mut items = Items::new(alloc);
    for text in texts {
        items.push(simple(alloc, text.as_slice())?)?;
    }
    Ok(items)
}

/// An array with no qualifier.
fn array<'p>(alloc: Global, kind: Kind, items: Items<'p>) -> Value<'p>
    ensures { result ≡ value (Array kind items.entry) [] }
{
    Value {
        shape: Shape::Array(kind, items),
        quals: Members::new(alloc),
    }
}

/// Alternatives of one item, a text of the default language.
#[tactic(auto, unfolding(crate::specs::Forms::made))]
fn spoken<'p>(alloc: Global, text: &[u8]) -> Result<Value<'p>, Memory>
    ensures { IfOk result (λ v. v ≡ made Language (text.now ∷ [])) }
{
    let mut items = Items::new(alloc);
    items.push(default_item(alloc, text)?)?;
    Ok(array(alloc, Kind::Alt, items))
}

/// A text of the default language, with no other qualifier.
fn default_item<'p>(alloc: Global, text: &[u8]) -> Result<Value<'p>, Memory>
    ensures { IfOk result (λ v. v ≡ default_item text.now) }
{
    let value = simple(alloc, DEFAULT_TAG)?;
    let mut quals = Members::new(alloc);
    quals.push(Member {
        name: lang_name(),
        value,
    })?;
    let text = owned(alloc, text)?;
    let shape = Shape::Simple(text);
    Ok(Value { shape, quals })
}

/// The name `xml:lang`.
#[tactic(auto, unfolding(xmp_tree::specs::Wf::lang_name, xmp_values::specs::Spaces::xml_space))]
fn lang_name() -> Name<'static>
    ensures { result ≡ lang_name }
{
    Name {
        space: Text::raw(b"http://www.w3.org/XML/1998/namespace".as_slice()),
        local: Text::raw(b"lang".as_slice()),
    }
}
