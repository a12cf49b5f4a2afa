//! Trees and choices for tests. Where memory runs out the test ends.
use crate::choices::{Choices, Sources, prefer};
use exif_fields::{ExifFields, RawExif, fields};
use irb_iptc::{Datasets, digest_of};
use std::alloc::Global;
use std::process::Abort;
use xmp_tree::{Items, Kind, Member, Members, Shape, Tree, Value};
use xmp_values::{Name, Text};

/// A namespace and a local part.
pub type Named = (&'static str, &'static str);

const DC: &str = "http://purl.org/dc/elements/1.1/";

const PHOTOSHOP: &str = "http://ns.adobe.com/photoshop/1.0/";

pub const DESCRIPTION: Named = (DC, "description");

pub const CREATOR: Named = (DC, "creator");

pub const SUBJECT: Named = (DC, "subject");

pub const SOURCE: Named = (DC, "source");

pub const FORMAT: Named = (DC, "format");

pub const DATE_CREATED: Named = (PHOTOSHOP, "DateCreated");

pub const CITY: Named = (PHOTOSHOP, "City");

const LABEL: Named = ("http://ns.adobe.com/xap/1.0/", "Label");

const LANG: Named = ("http://www.w3.org/XML/1998/namespace", "lang");

/// Whether a value has a qualifier.
pub const LABELLED: bool = true;

pub const PLAIN: bool = false;

/// What a property holds. The items of a list have a qualifier where the list has one; a text of a
/// language has its tag, the text, and whether it has one more.
#[derive(Clone, Copy)]
pub enum Held {
    Simple(&'static str),
    List(Kind, &'static [&'static str]),
    Languages(&'static [(&'static str, &'static str, bool)]),
}

/// A property, what it holds, and whether it has a qualifier.
pub type Sample = (Named, Held, bool);

/// The digest that is stored for a block.
#[derive(Clone, Copy)]
pub enum Stored {
    Nothing,
    /// The block's own.
    Same,
    /// 16 zero bytes.
    Zero,
}

/// What stands beside a tree: Exif's DateTimeOriginal and its offset, and a block with the digest
/// that is stored for it. Where there is no block its digest is missing too.
#[derive(Clone, Copy)]
pub struct Beside {
    pub date: &'static str,
    pub offset: &'static str,
    pub block: &'static [u8],
    pub stored: Stored,
}

fn member(named: Named, value: Value<'static>) -> Member<'static> {
    let (space, local) = named;
    let space = Text::raw(space.as_bytes());
    let local = Text::raw(local.as_bytes());
    let name = Name { space, local };
    Member { name, value }
}

fn simple(text: &'static str, quals: Members<'static>) -> Value<'static> {
    let shape = Shape::Simple(Text::raw(text.as_bytes()));
    Value { shape, quals }
}

/// Members with one more, a plain text.
fn with_text(
    rt: &(impl Abort + AllocGlobal),
    members: Members<'static>,
    named: Named,
    text: &'static str,
) -> Members<'static> {
    let mut members = members;
    let value = simple(text, Members::new(rt.alloc()));
    members.push(member(named, value)).expect(rt, "memory");
    members
}

/// Qualifiers with one more, or as they are.
fn labels(
    rt: &(impl Abort + AllocGlobal),
    quals: Members<'static>,
    labelled: bool,
) -> Members<'static> {
    if labelled {
        with_text(rt, quals, LABEL, "q")
    } else {
        quals
    }
}

fn items_of(
    rt: &(impl Abort + AllocGlobal),
    texts: &[&'static str],
    labelled: bool,
) -> Items<'static> {
    let mut items = Items::new(rt.alloc());
    for text in texts {
        let quals = labels(rt, Members::new(rt.alloc()), labelled);
        items.push(simple(text, quals)).expect(rt, "memory");
    }
    items
}

fn languages_of(
    rt: &(impl Abort + AllocGlobal),
    texts: &[(&'static str, &'static str, bool)],
) -> Items<'static> {
    let mut items = Items::new(rt.alloc());
    for (tag, text, labelled) in texts {
        let quals = with_text(rt, Members::new(rt.alloc()), LANG, tag);
        let quals = labels(rt, quals, *labelled);
        items.push(simple(text, quals)).expect(rt, "memory");
    }
    items
}

fn value_of(rt: &(impl Abort + AllocGlobal), held: Held, labelled: bool) -> Value<'static> {
    let quals = labels(rt, Members::new(rt.alloc()), labelled);
    match held {
        Held::Simple(text) => simple(text, quals),
        Held::List(kind, texts) => {
            let shape = Shape::Array(kind, items_of(rt, texts, labelled));
            Value { shape, quals }
        }
        Held::Languages(texts) => {
            let shape = Shape::Array(Kind::Alt, languages_of(rt, texts));
            Value { shape, quals }
        }
    }
}

/// A tree of these properties.
pub fn tree_of(rt: &(impl Abort + AllocGlobal), properties: &[Sample]) -> Tree<'static> {
    let mut members = Members::new(rt.alloc());
    for (named, held, labelled) in properties {
        let value = value_of(rt, *held, *labelled);
        members.push(member(*named, value)).expect(rt, "memory");
    }
    let tree = Tree::checked(rt.alloc(), Text::raw(b""), members).expect(rt, "memory");
    tree.expect(rt, "well-formed")
}

fn exif_of(rt: &(impl Abort + AllocGlobal), beside: &Beside) -> ExifFields {
    let mut raw = RawExif::new(rt.alloc());
    raw.take(0x9003, beside.date.as_bytes())
        .expect(rt, "memory");
    raw.take(0x9011, beside.offset.as_bytes())
        .expect(rt, "memory");
    fields(rt.alloc(), &raw).expect(rt, "memory")
}

/// The digest of a block that is there.
fn digest_if(block: &[u8]) -> Option<[u8; 16]> {
    if block.is_empty() {
        None
    } else {
        Some(digest_of(block))
    }
}

fn stored_of(beside: &Beside) -> Option<[u8; 16]> {
    match beside.stored {
        Stored::Nothing => None,
        Stored::Same => digest_if(beside.block),
        Stored::Zero => Some([0; 16]),
    }
}

/// The choices for a tree.
pub fn choices(rt: &(impl Abort + AllocGlobal), beside: &Beside, tree: &Tree<'_>) -> Choices {
    let sources = Sources {
        exif: exif_of(rt, beside),
        iptc: Datasets::of(rt.alloc(), beside.block).expect(rt, "datasets"),
        stored: stored_of(beside),
        block: digest_if(beside.block),
    };
    prefer(rt.alloc(), &sources, tree).expect(rt, "memory")
}
