//! The text of values, level by level (ISO 16684-1, 7.5 to 7.9).
ghost use Rattle.std.specs.Prelude.{◌≡◌, ◌++◌, codes, IsTrue, ◌↔◌, ◌∷◌, []};
ghost use Rattle.std.specs.List.{flat_map};
ghost use Rattle.std.specs.Option.{option_copied};
ghost use Rattle.xmp_tree.specs.declared.nested.Value.{out-Value};
ghost use Rattle.xmp_tree.specs.declared.nested.Shape.{out-Shape};
ghost use Rattle.xmp_write.specs.Prefixes.{spelled};
ghost use Rattle.xmp_write.specs.Text.{is_lang_name, value_text, shape_text, member_text, element_text, empty_text, attribute_text, text_escaped, lang_text, parse_text, kind_name};
ghost use Rattle.xmp_write.specs.Placing.{Puts, spelled_name, simple_layer, has_lang, lang_of, others_of};

use crate::placing::{
    Spelled, put, put_end, put_escaped, put_lang, put_parsed, put_resource, put_start, rdf,
};
use crate::prefixes::Prefixes;
use xmp_lanes::Escape;
use xmp_tree::{Kind, Member, Shape, Value};
use xmp_values::{Name, is_xml_namespace};

/// Whether the name is `xml:lang`, which is written as an attribute.
fn is_lang_name(name: &Name<'_>) -> bool
    ensures { result ≡ is_lang_name name.now }
{
    is_xml_namespace(name.space.bytes()) && name.local.bytes() == b"lang".as_slice()
}

/// The text of a simple value; none of others.
fn simple_text<'v>(value: &'v Value<'_>) -> &'v [u8]
    ensures { result.now ≡ simple_layer (out-Shape (out-Value value.now).shape) }
{
    match &value.shape {
        Shape::Simple(text) => text.bytes(),
        _ => b"",
    }
}

/// Whether the qualifier `xml:lang` is there, which is the first then.
fn has_lang(quals: &[Member<'_>]) -> bool
    ensures { result ≡ has_lang quals.now }
{
    match quals.first() {
        Some(member) => is_lang_name(&member.name),
        None => false,
    }
}

/// Its text.
fn lang_of<'v>(quals: &'v [Member<'_>]) -> Option<&'v [u8]>
    ensures { option_copied result ≡ lang_of quals.now }
{
    if has_lang(quals) {
        Some(simple_text(&quals[0].value))
    } else {
        None
    }
}

/// The qualifiers besides `xml:lang`.
fn others_of<'v, 'p>(quals: &'v [Member<'p>]) -> &'v [Member<'p>]
    ensures { result.now ≡ others_of quals.now }
{
    let own = usize::from(has_lang(quals));
    &quals[own..]
}

impl Prefixes<'_> {
    /// A name as it is spelled.
    fn spelled<'n>(&'n self, name: &'n Name<'_>) -> Spelled<'n>
        ensures { spelled_name result ≡ spelled self.now name.now }
    {
        Spelled {
            prefix: self.prefix_of(name.space.bytes()),
            local: name.local.bytes(),
        }
    }
}

/// Puts a value as an element of a name.
#[cycle(values)]
pub fn put_value(
    to: &mut [u8],
    at: u64,
    prefixes: &Prefixes<'_>,
    name: Spelled<'_>,
    value: &Value<'_>,
) -> u64
    ensures { Puts to.old to.new at result (value_text prefixes.now (spelled_name name.entry) value.now) }
{
    let quals = value.quals.as_slice();
    let lang = lang_of(quals);
    let others = others_of(quals);
    if others.is_empty() {
        return put_shape(to, at, prefixes, name, lang, &value.shape);
    }
    let at = put_start(to, at, name);
    let at = put_parsed(to, at, lang);
    let at = put(to, at, b">");
    let at = put_shape(to, at, prefixes, rdf(b"value"), None, &value.shape);
    let at = put_members(to, at, prefixes, others);
    put_end(to, at, name)
}

/// Puts a value without qualifiers besides `xml:lang`.
#[cycle(values)]
fn put_shape(
    to: &mut [u8],
    at: u64,
    prefixes: &Prefixes<'_>,
    name: Spelled<'_>,
    lang: Option<&[u8]>,
    shape: &Shape<'_>,
) -> u64
    ensures { Puts to.old to.new at result (shape_text prefixes.now (spelled_name name.entry) (option_copied lang.entry) shape.now) }
{
    match shape {
        Shape::Simple(text) => put_simple(to, at, name, lang, text.bytes()),
        Shape::Uri(uri) => put_uri(to, at, name, lang, uri.bytes()),
        Shape::Struct(fields) => put_struct(to, at, prefixes, name, lang, fields.as_slice()),
        Shape::Array(kind, items) => {
            put_array(to, at, prefixes, name, lang, *kind, items.as_slice())
        }
    }
}

/// Puts a simple text.
pub fn put_simple(
    to: &mut [u8],
    at: u64,
    name: Spelled<'_>,
    lang: Option<&[u8]>,
    text: &[u8],
) -> u64
    ensures { Puts to.old to.new at result (element_text (spelled_name name.entry) (lang_text (option_copied lang.entry)) (text_escaped text.now)) }
{
    let at = put_start(to, at, name);
    let at = put_lang(to, at, lang);
    let at = put(to, at, b">");
    let at = put_escaped(to, at, text, Escape::Text);
    put_end(to, at, name)
}

fn put_uri(to: &mut [u8], at: u64, name: Spelled<'_>, lang: Option<&[u8]>, uri: &[u8]) -> u64
    ensures { Puts to.old to.new at result (empty_text (spelled_name name.entry) (lang_text (option_copied lang.entry) ++ attribute_text (codes "rdf:resource") uri.now)) }
{
    let at = put_start(to, at, name);
    let at = put_resource(to, at, lang, uri);
    put(to, at, b"/>")
}

#[cycle(values)]
fn put_struct(
    to: &mut [u8],
    at: u64,
    prefixes: &Prefixes<'_>,
    name: Spelled<'_>,
    lang: Option<&[u8]>,
    fields: &[Member<'_>],
) -> u64
    ensures { Puts to.old to.new at result (element_text (spelled_name name.entry) (lang_text (option_copied lang.entry) ++ parse_text) (flat_map (member_text prefixes.now) fields.now)) }
{
    let at = put_start(to, at, name);
    let at = put_parsed(to, at, lang);
    let at = put(to, at, b">");
    let at = put_members(to, at, prefixes, fields);
    put_end(to, at, name)
}

/// The start tag of an array's container.
fn kind_start(kind: Kind) -> &'static [u8]
    ensures { result.now ≡ codes "<" ++ kind_name kind ++ [] ++ codes ">" }
{
    match kind {
        Kind::Bag => b"<rdf:Bag>",
        Kind::Seq => b"<rdf:Seq>",
        Kind::Alt => b"<rdf:Alt>",
    }
}

/// Its end tag.
fn kind_end(kind: Kind) -> &'static [u8]
    ensures { result.now ≡ codes "</" ++ kind_name kind ++ codes ">" }
{
    match kind {
        Kind::Bag => b"</rdf:Bag>",
        Kind::Seq => b"</rdf:Seq>",
        Kind::Alt => b"</rdf:Alt>",
    }
}

#[cycle(values)]
fn put_array(
    to: &mut [u8],
    at: u64,
    prefixes: &Prefixes<'_>,
    name: Spelled<'_>,
    lang: Option<&[u8]>,
    kind: Kind,
    items: &[Value<'_>],
) -> u64
    ensures { Puts to.old to.new at result (element_text (spelled_name name.entry) (lang_text (option_copied lang.entry)) (element_text (kind_name kind) [] (flat_map (value_text prefixes.now (codes "rdf:li")) items.now))) }
{
    let at = put_start(to, at, name);
    let at = put_lang(to, at, lang);
    let at = put(to, at, b">");
    let at = put(to, at, kind_start(kind));
    let at = put_items(to, at, prefixes, items);
    let at = put(to, at, kind_end(kind));
    put_end(to, at, name)
}

/// Puts fields, qualifiers or properties, each as an element of its name.
#[cycle(values)]
fn put_members(to: &mut [u8], at: u64, prefixes: &Prefixes<'_>, members: &[Member<'_>]) -> u64
    ensures { Puts to.old to.new at result (flat_map (member_text prefixes.now) members.now) }
{
    let mut after = at;
    for member in members {
        after = put_member(to, after, prefixes, member);
    }
    after
}

#[cycle(values)]
pub fn put_member(to: &mut [u8], at: u64, prefixes: &Prefixes<'_>, member: &Member<'_>) -> u64
    ensures { Puts to.old to.new at result (member_text prefixes.now member.now) }
{
    let name = (&*prefixes).spelled(&member.name);
    put_value(to, at, prefixes, name, &member.value)
}

/// Puts the items of an array, each as an element `rdf:li`.
#[cycle(values)]
fn put_items(to: &mut [u8], at: u64, prefixes: &Prefixes<'_>, items: &[Value<'_>]) -> u64
    ensures { Puts to.old to.new at result (flat_map (value_text prefixes.now (codes "rdf:li")) items.now) }
{
    let mut after = at;
    for item in items {
        after = put_value(to, after, prefixes, rdf(b"li"), item);
    }
    after
}
