//! Trees that the tests write. Where memory runs out the test ends.
use std::alloc::Global;
use std::process::Abort;
use xmp_tree::{Items, Kind, Member, Members, Shape, Tree, Value};
use xmp_values::{Bytes, Hint, Hints, Name, Text};

pub const DC: &str = "http://purl.org/dc/elements/1.1/";

const XMP: &str = "http://ns.adobe.com/xap/1.0/";

const XMP_MM: &str = "http://ns.adobe.com/xap/1.0/mm/";

const RDF: &str = "http://www.w3.org/1999/02/22-rdf-syntax-ns#";

const XML: &str = "http://www.w3.org/XML/1998/namespace";

fn plain(alloc: Global, shape: Shape<'static>) -> Value<'static> {
    let quals = Members::new(alloc);
    Value { shape, quals }
}

pub fn simple(alloc: Global, text: Text<'static>) -> Value<'static> {
    plain(alloc, Shape::Simple(text))
}

pub fn text(alloc: Global, text: &'static str) -> Value<'static> {
    simple(alloc, Text::raw(text.as_bytes()))
}

pub fn uri(alloc: Global, uri: &'static str) -> Value<'static> {
    plain(alloc, Shape::Uri(Text::raw(uri.as_bytes())))
}

pub fn member(space: &'static str, local: &'static str, value: Value<'static>) -> Member<'static> {
    let space = Text::raw(space.as_bytes());
    let local = Text::raw(local.as_bytes());
    let name = Name { space, local };
    Member { name, value }
}

/// Members with one more.
pub fn more(
    rt: &(impl Abort + AllocGlobal),
    members: Members<'static>,
    next: Member<'static>,
) -> Members<'static> {
    let mut members = members;
    members.push(next).expect(rt, "memory");
    members
}

pub fn one(rt: &(impl Abort + AllocGlobal), first: Member<'static>) -> Members<'static> {
    more(rt, Members::new(rt.alloc()), first)
}

/// A value with one qualifier more.
pub fn qualified(
    rt: &(impl Abort + AllocGlobal),
    value: Value<'static>,
    qualifier: Member<'static>,
) -> Value<'static> {
    let Value { shape, quals } = value;
    let quals = more(rt, quals, qualifier);
    Value { shape, quals }
}

pub fn structure(alloc: Global, fields: Members<'static>) -> Value<'static> {
    plain(alloc, Shape::Struct(fields))
}

/// Items with one more.
fn more_items(
    rt: &(impl Abort + AllocGlobal),
    items: Items<'static>,
    next: Value<'static>,
) -> Items<'static> {
    let mut items = items;
    items.push(next).expect(rt, "memory");
    items
}

pub fn item(rt: &(impl Abort + AllocGlobal), first: Value<'static>) -> Items<'static> {
    more_items(rt, Items::new(rt.alloc()), first)
}

pub fn array(alloc: Global, kind: Kind, items: Items<'static>) -> Value<'static> {
    plain(alloc, Shape::Array(kind, items))
}

fn spoken(
    rt: &(impl Abort + AllocGlobal),
    lang: &'static str,
    said: &'static str,
) -> Value<'static> {
    let alloc = rt.alloc();
    qualified(
        rt,
        text(alloc, said),
        member(XML, "lang", text(alloc, lang)),
    )
}

/// `dc:creator`, a structure with a type.
pub fn creator(rt: &(impl Abort + AllocGlobal)) -> Member<'static> {
    let alloc = rt.alloc();
    let fields = one(rt, member(DC, "format", text(alloc, "v")));
    let person = uri(alloc, "http://ns.adobe.com/xap/1.0/Person");
    let creator = qualified(rt, structure(alloc, fields), member(RDF, "type", person));
    member(DC, "creator", creator)
}

/// `xmpMM:History` with one event.
fn history(rt: &(impl Abort + AllocGlobal)) -> Member<'static> {
    let alloc = rt.alloc();
    let action = one(rt, member("urn:evt", "action", text(alloc, "saved")));
    let event = more(
        rt,
        action,
        member("urn:evt", "changed", text(alloc, "/metadata")),
    );
    let events = item(rt, structure(alloc, event));
    member(XMP_MM, "History", array(alloc, Kind::Seq, events))
}

/// `dc:title` in two languages.
fn title(rt: &(impl Abort + AllocGlobal)) -> Member<'static> {
    let titles = item(rt, spoken(rt, "x-default", "Sea"));
    let titles = more_items(rt, titles, spoken(rt, "de", "Meer"));
    member(DC, "title", array(rt.alloc(), Kind::Alt, titles))
}

/// The properties of a usual packet.
pub fn usual(rt: &(impl Abort + AllocGlobal)) -> Members<'static> {
    let created = member(
        XMP,
        "CreateDate",
        text(rt.alloc(), "2021-03-04T05:06:07+01:00"),
    );
    let props = more(rt, one(rt, created), history(rt));
    more(rt, props, title(rt))
}

/// A tree of these properties.
pub fn tree_of(
    rt: &(impl Abort + AllocGlobal),
    about: Text<'static>,
    props: Members<'static>,
) -> Tree<'static> {
    let tree = Tree::checked(rt.alloc(), about, props).expect(rt, "memory");
    tree.expect(rt, "well-formed")
}

/// Bytes of their own.
fn owned(rt: &(impl Abort + AllocGlobal), text: &str) -> Bytes {
    Bytes::from_slice(rt.alloc(), text.as_bytes()).expect(rt, "memory")
}

/// Hints at namespaces, each with its prefix.
pub fn hinted(rt: &(impl Abort + AllocGlobal), rows: &[(&str, &str)]) -> Hints {
    let mut hints = Hints::new(rt.alloc());
    for (space, prefix) in rows {
        let space = owned(rt, space);
        let prefix = owned(rt, prefix);
        hints
            .push_if_valid(Hint { space, prefix })
            .expect(rt, "memory");
    }
    hints
}
