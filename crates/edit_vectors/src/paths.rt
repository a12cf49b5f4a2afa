//! Paths that are read, and values that they find.
use std::alloc::Global;
use std::test::Fail;
use xmp_paths::{Path, PathStop, find};
use xmp_tree::{Member, Members, Shape, Tree, Value};
use xmp_values::{Bytes, Hint, Hints, Memory, Name, Rule, Text};

/// Texts, each with the number of steps of its path, or the rule that it breaks. The file hints at one
/// prefix, `p`.
const PATHS: [(&str, Result<usize, Rule>); 38] = [
    ("dc:format", Ok(0)),
    ("Iptc4xmpCore:Location", Ok(0)),
    ("p:\u{E9}t\u{E9}-1", Ok(0)),
    ("dc:a/?xml:lang", Ok(1)),
    ("dc:a/?rdf:type", Ok(1)),
    ("dc:a/xmpNote:HasExtendedXMP", Ok(1)),
    ("dc:a/b:c[1]", Err(Rule::UnknownPrefix)),
    ("dc:a/dc:b/?p:c[1][999999999][x-default][en-US]", Ok(6)),
    ("rdf:a/zz:b", Err(Rule::UnknownPrefix)),
    ("zz:a/[", Err(Rule::BadPath)),
    ("rdf:value", Err(Rule::Reserved)),
    ("xml:lang", Err(Rule::Reserved)),
    ("rdf:type", Err(Rule::Reserved)),
    ("xmpNote:HasExtendedXMP", Err(Rule::Reserved)),
    ("dc:a/rdf:type", Err(Rule::Reserved)),
    ("dc:a/xml:lang", Err(Rule::Reserved)),
    ("dc:a/?rdf:value", Err(Rule::Reserved)),
    ("dc:a/?xml:lang[1]", Err(Rule::Reserved)),
    ("dc:a/?rdf:type/?dc:b", Err(Rule::Reserved)),
    ("DC:a", Err(Rule::UnknownPrefix)),
    ("", Err(Rule::BadPath)),
    ("dc", Err(Rule::BadPath)),
    (":a", Err(Rule::BadPath)),
    ("dc:a:b", Err(Rule::BadPath)),
    ("dc:a ", Err(Rule::BadPath)),
    ("dc:a/", Err(Rule::BadPath)),
    ("dc:a/?", Err(Rule::BadPath)),
    ("dc:a//dc:b", Err(Rule::BadPath)),
    ("dc:a[", Err(Rule::BadPath)),
    ("dc:a[]", Err(Rule::BadPath)),
    ("dc:a[0]", Err(Rule::BadPath)),
    ("dc:a[01]", Err(Rule::BadPath)),
    ("dc:a[+1]", Err(Rule::BadPath)),
    ("dc:a[1]]", Err(Rule::BadPath)),
    ("dc:a[1]x", Err(Rule::BadPath)),
    ("dc:a[1234567890]", Err(Rule::BadPath)),
    ("dc:a[-en]", Err(Rule::BadPath)),
    ("dc:a[e_n]", Err(Rule::BadPath)),
];

/// The one hint.
fn hinted(alloc: Global) -> Result<Hints, Memory> {
    let mut hints = Hints::new(alloc);
    hints.push_if_valid(Hint {
        space: Bytes::from_slice(alloc, b"urn:p")?,
        prefix: Bytes::from_slice(alloc, b"p")?,
    })?;
    Ok(hints)
}

/// What a text gives: the number of steps, or the broken rule.
fn read(alloc: Global, hints: &Hints, text: &[u8]) -> Result<Result<usize, Rule>, Memory> {
    match Path::read(alloc, text, hints) {
        Ok(path) => Ok(Ok(path.steps().len())),
        Err(PathStop::Fault(rule)) => Ok(Err(rule)),
        Err(PathStop::Memory) => Err(Memory),
    }
}

#[test]
fn paths_are_read(rt: HostRuntime) -> Result<(), Fail> {
    let alloc = rt.alloc();
    let hints = hinted(alloc)?;
    for (text, want) in PATHS {
        assert!(rt; read(alloc, &hints, text.as_bytes())? == want, "{text}");
    }
    assert!(rt; read(alloc, &hints, b"dc:\xE9")? == Err(Rule::BadPath));
    Ok(())
}

/// `dc:a` and a number of steps `[1]`.
fn items(alloc: Global, number: usize) -> Result<String, Memory> {
    let mut text = String::from_str(alloc, "dc:a")?;
    for _ in 0..number {
        text.push_str("[1]")?;
    }
    Ok(text)
}

/// A tag of a number of letters.
fn tagged(alloc: Global, letters: usize) -> Result<String, Memory> {
    let mut text = String::from_str(alloc, "dc:a[")?;
    for _ in 0..letters {
        text.push_str("x")?;
    }
    text.push_str("]")?;
    Ok(text)
}

#[test]
fn paths_and_tags_have_limits(rt: HostRuntime) -> Result<(), Fail> {
    let alloc = rt.alloc();
    let hints = Hints::new(alloc);
    assert!(rt; read(alloc, &hints, items(alloc, 23)?.as_bytes())? == Ok(23));
    assert!(rt; read(alloc, &hints, items(alloc, 24)?.as_bytes())? == Err(Rule::EditDeep));
    assert!(rt; read(alloc, &hints, items(alloc, 349_524)?.as_bytes())? == Err(Rule::EditDeep));
    assert!(rt; read(alloc, &hints, tagged(alloc, 100)?.as_bytes())? == Ok(1));
    assert!(rt; read(alloc, &hints, tagged(alloc, 101)?.as_bytes())? == Err(Rule::BadPath));
    Ok(())
}

fn name(space: &'static str, local: &'static str) -> Name<'static> {
    Name {
        space: Text::raw(space.as_bytes()),
        local: Text::raw(local.as_bytes()),
    }
}

fn text(alloc: Global, text: &'static str) -> Value<'static> {
    Value {
        shape: Shape::Simple(Text::raw(text.as_bytes())),
        quals: Members::new(alloc),
    }
}

/// A text with its language.
fn spoken(alloc: Global, lang: &'static str, said: &'static str) -> Result<Value<'static>, Memory> {
    let mut value = text(alloc, said);
    value.quals.push(Member {
        name: name("http://www.w3.org/XML/1998/namespace", "lang"),
        value: text(alloc, lang),
    })?;
    Ok(value)
}

/// `p:s` is a structure whose field `p:f` has three items.
fn properties(alloc: Global) -> Result<Members<'static>, Memory> {
    let mut items = xmp_tree::Items::new(alloc);
    items.push(text(alloc, "one"))?;
    items.push(spoken(alloc, "en", "two")?)?;
    items.push(spoken(alloc, "EN", "three")?)?;
    let mut fields = Members::new(alloc);
    fields.push(Member {
        name: name("urn:p", "f"),
        value: Value {
            shape: Shape::Array(xmp_tree::Kind::Alt, items),
            quals: Members::new(alloc),
        },
    })?;
    let mut props = Members::new(alloc);
    props.push(Member {
        name: name("http://purl.org/dc/elements/1.1/", "s"),
        value: text(alloc, "other"),
    })?;
    props.push(Member {
        name: name("urn:p", "s"),
        value: Value {
            shape: Shape::Struct(fields),
            quals: Members::new(alloc),
        },
    })?;
    Ok(props)
}

/// Paths, each with the text at it, if there is one.
const FOUND: [(&str, Option<&str>); 11] = [
    ("dc:s", Some("other")),
    ("p:s/p:f[1]", Some("one")),
    ("p:s/p:f[2]", Some("two")),
    ("p:s/p:f[En]", Some("two")),
    ("p:s/p:f[3]/?xml:lang", Some("EN")),
    ("p:s/p:f[4]", None),
    ("p:s/p:f[de]", None),
    ("p:s/dc:f", None),
    ("dc:s/p:f", None),
    ("dc:s[1]", None),
    ("p:t", None),
];

/// Whether the text at a path is this one, or nothing is there where none is wanted.
fn is_found(alloc: Global, tree: &Tree<'_>, hints: &Hints, path: &str, want: Option<&str>) -> bool {
    let Ok(path) = Path::read(alloc, path.as_bytes(), hints) else {
        return false;
    };
    match (find(tree, &path), want) {
        (Some(value), Some(want)) => match &value.shape {
            Shape::Simple(text) => text.bytes() == want.as_bytes(),
            _ => false,
        },
        (None, None) => true,
        _ => false,
    }
}

#[test]
fn values_are_found(rt: HostRuntime) -> Result<(), Fail> {
    let alloc = rt.alloc();
    let hints = hinted(alloc)?;
    let Some(tree) = Tree::checked(alloc, Text::raw(b""), properties(alloc)?)? else {
        return Err(Fail::from("no tree"));
    };
    for (path, want) in FOUND {
        assert!(rt; is_found(alloc, &tree, &hints, path, want), "{path}");
    }
    Ok(())
}
