//! Trees that scripts make, and the first faults of scripts.
use std::alloc::Global;
use std::test::Fail;
use xmp_edit::{Path, Script, apply, find, one_set};
use xmp_tree::{Kind, Shape, Tree, Value, empty, equal};
use xmp_values::{Hints, PlaceStop};

/// What a script makes of a tree whose `dc:format` is `image/jpeg`.
fn made(alloc: Global, script: &str) -> Result<Tree<'static>, PlaceStop> {
    let hints = Hints::new(alloc);
    let first = Script::read(alloc, b"set dc:format image/jpeg", &hints)?;
    let script = Script::read(alloc, script.as_bytes(), &hints)?;
    let tree: Tree<'static> = apply(empty(alloc), &first)?;
    apply(tree, &script)
}

fn kind_name(kind: Kind) -> &'static str {
    match kind {
        Kind::Bag => "bag",
        Kind::Seq => "seq",
        Kind::Alt => "alt",
    }
}

/// Whether a value is of the kind, and a text or a URI is this one.
fn is_value(value: &Value<'_>, kind: &str, text: &str) -> bool {
    match &value.shape {
        Shape::Simple(simple) => kind == "text" && simple.bytes() == text.as_bytes(),
        Shape::Uri(uri) => kind == "uri" && uri.bytes() == text.as_bytes(),
        Shape::Struct(_) => kind == "struct",
        Shape::Array(array, _) => kind == kind_name(*array),
    }
}

/// Whether such a value is at a path; `none` where nothing is.
fn is_at(alloc: Global, tree: &Tree<'_>, path: &str, kind: &str, text: &str) -> bool {
    match Path::read(alloc, path.as_bytes(), &Hints::new(alloc)) {
        Ok(path) => match find(tree, &path) {
            Some(value) => is_value(value, kind, text),
            None => kind == "none",
        },
        Err(_) => false,
    }
}

/// Whether a script makes these values: paths, kinds and texts.
fn makes(alloc: Global, script: &str, values: &[(&str, &str, &str)]) -> bool {
    match made(alloc, script) {
        Ok(tree) => values
            .iter()
            .all(|(path, kind, text)| is_at(alloc, &tree, path, kind, text)),
        Err(_) => false,
    }
}

#[test]
fn items_are_put_in_and_taken_out(rt: HostRuntime) -> Result<(), Fail> {
    let subject = "array dc:subject bag\r\nappend dc:subject a\ninsert dc:subject 1 b\n\
qualify dc:subject[1] xmp:Label q\ndelete dc:subject[2]\n";
    let values = [
        ("dc:subject", "bag", ""),
        ("dc:subject[1]", "text", "b"),
        ("dc:subject[1]/?xmp:Label", "text", "q"),
        ("dc:subject[2]", "none", ""),
    ];
    assert!(rt; makes(rt.alloc(), subject, &values));
    let sequence = "array dc:a seq\nset dc:a[1] x\nset dc:a[2] y\narray dc:a seq\ninsert dc:a 3 z";
    let values = [
        ("dc:a", "seq", ""),
        ("dc:a[2]", "text", "y"),
        ("dc:a[3]", "text", "z"),
    ];
    assert!(rt; makes(rt.alloc(), sequence, &values));
    Ok(())
}

#[test]
fn the_default_language_is_put_in_front(rt: HostRuntime) -> Result<(), Fail> {
    let title = "setlang dc:title en Sea\nsetlang dc:title de Meer\nsetlang dc:title fr Mer\n\
setlang dc:title x-default Sea\nqualify dc:title[2] xmp:Label q\nsetlang dc:title EN See";
    let values = [
        ("dc:title", "alt", ""),
        ("dc:title[1]", "text", "Sea"),
        ("dc:title[1]/?xml:lang", "text", "x-default"),
        ("dc:title[2]", "text", "See"),
        ("dc:title[2]/?xml:lang", "text", "en"),
        ("dc:title[2]/?xmp:Label", "text", "q"),
        ("dc:title[4]", "text", "Mer"),
        ("dc:title[5]", "none", ""),
    ];
    assert!(rt; makes(rt.alloc(), title, &values));
    Ok(())
}

#[test]
fn structures_and_texts_are_set(rt: HostRuntime) -> Result<(), Fail> {
    let creator = "struct dc:creator\nset dc:creator/dc:format v\n\
seturi dc:creator/?rdf:type http://ns.adobe.com/xap/1.0/Person\nset dc:format x";
    let values = [
        ("dc:creator", "struct", ""),
        (
            "dc:creator/?rdf:type",
            "uri",
            "http://ns.adobe.com/xap/1.0/Person",
        ),
        ("dc:creator/dc:format", "text", "v"),
        ("dc:format", "text", "x"),
    ];
    assert!(rt; makes(rt.alloc(), creator, &values));
    let spaces = "set dc:subject x\nns demo http://e/\nset demo:a y\ndelete dc:format";
    let values = [("dc:subject", "text", "x"), ("dc:format", "none", "")];
    assert!(rt; makes(rt.alloc(), spaces, &values));
    let source = "set dc:source a\\rb\\nc\\td&e<f]]>\u{1F600}\\\\";
    let values = [("dc:source", "text", "a\rb\nc\td&e<f]]>\u{1F600}\\")];
    assert!(rt; makes(rt.alloc(), source, &values));
    Ok(())
}

/// The rule and the number of a fault.
fn told(stop: PlaceStop) -> (&'static str, u64) {
    match stop {
        PlaceStop::Fault(rule, at) => (rule.name(), at),
        PlaceStop::Memory => ("memory", 0),
    }
}

/// The fault of a script over the tree.
fn fault(alloc: Global, script: &str) -> (&'static str, u64) {
    match made(alloc, script) {
        Ok(_) => ("none", 0),
        Err(stop) => told(stop),
    }
}

#[test]
fn edits_are_refused(rt: HostRuntime) -> Result<(), Fail> {
    let faults = [
        ("set dc:format/xmp:Label x", "WrongShape", 1),
        ("set dc:source x\ndelete dc:title", "NoSuchPlace", 2),
        (
            "array dc:a bag\nappend dc:a a\ninsert dc:a 3 c",
            "OutOfArray",
            3,
        ),
        ("\n#x\nappend dc:format x", "WrongShape", 3),
        ("append dc:a x", "NoSuchPlace", 1),
        ("array dc:a bag\ndelete dc:a[1]", "OutOfArray", 2),
        ("array dc:a bag\nset dc:a[en] x", "NoSuchPlace", 2),
        ("array dc:a bag\nsetlang dc:a en x", "WrongShape", 2),
        ("array dc:a alt\narray dc:a bag", "WrongShape", 2),
        ("struct dc:a\nset dc:a x", "WrongShape", 2),
        ("set dc:a/dc:b x", "NoSuchPlace", 1),
        ("set dc:format[1] x", "WrongShape", 1),
    ];
    for (script, rule, line) in faults {
        assert!(rt; fault(rt.alloc(), script) == (rule, line), "{script}");
    }
    Ok(())
}

#[test]
fn lines_are_refused(rt: HostRuntime) -> Result<(), Fail> {
    let faults = [
        ("set dc:source x\nfrob", "BadLine", 2),
        ("set dc:a", "BadLine", 1),
        ("set  x", "BadLine", 1),
        ("delete dc:a ", "BadLine", 1),
        ("array dc:a list", "BadLine", 1),
        ("insert dc:a 0 x", "BadLine", 1),
        ("insert dc:a 1234567890 x", "BadLine", 1),
        ("set dc:a \\x", "BadLine", 1),
        ("set dc:a \\", "BadLine", 1),
        ("set dc:a x\rset", "none", 0),
        ("ns 1 http://e/", "BadLine", 1),
        ("set dc:a[ x", "BadPath", 1),
        ("set zz:a x", "UnknownPrefix", 1),
        ("set rdf:a x\nset zz:a x", "Reserved", 1),
        ("ns p http://e/\nns p http://f/", "Reserved", 2),
        ("set dc:a/?rdf:type x", "Reserved", 1),
        ("set dc:a \u{FFFE}", "BadText", 1),
        ("setlang dc:a 1 x", "BadTag", 1),
        (
            "append dc:a[1][1][1][1][1][1][1][1][1][1][1][1][1][1][1][1][1][1][1][1][1][1][1] x",
            "EditDeep",
            1,
        ),
    ];
    for (script, rule, line) in faults {
        assert!(rt; fault(rt.alloc(), script) == (rule, line), "{script}");
    }
    Ok(())
}

fn fault_of(script: Result<Script, PlaceStop>) -> (&'static str, u64) {
    match script {
        Ok(_) => ("none", 0),
        Err(stop) => told(stop),
    }
}

#[test]
fn one_set_names_its_words(rt: HostRuntime) -> Result<(), Fail> {
    let alloc = rt.alloc();
    let hints = Hints::new(alloc);
    assert!(rt; fault_of(one_set(alloc, b"dc:a", b"\\x", &hints)) == ("none", 0));
    assert!(rt; fault_of(one_set(alloc, b"none:x", b"", &hints)) == ("UnknownPrefix", 3));
    assert!(rt; fault_of(one_set(alloc, b"dc:a", b"\x01", &hints)) == ("BadText", 4));
    assert!(rt; fault_of(one_set(alloc, b"dc:a/?xml:lang", b"1", &hints)) == ("BadTag", 4));
    assert!(rt; fault_of(Script::read(alloc, b"set dc:a \xFF", &hints)) == ("ScriptUtf8", 9));
    Ok(())
}

/// Whether two scripts make one tree.
fn make_one(alloc: Global, one: &str, other: &str) -> bool {
    match (made(alloc, one), made(alloc, other)) {
        (Ok(one), Ok(other)) => equal(&one, &other),
        _ => false,
    }
}

#[test]
fn an_empty_script_changes_nothing(rt: HostRuntime) -> Result<(), Fail> {
    assert!(rt; make_one(rt.alloc(), "", "\n# x\n\r\n"));
    assert!(rt; !make_one(rt.alloc(), "", "set dc:format x"));
    Ok(())
}

/// Whether the hint of a script at a place is this one; there is none where the prefix is empty.
fn is_hint(alloc: Global, script: &str, at: usize, space: &str, prefix: &str) -> bool {
    match Script::read(alloc, script.as_bytes(), &Hints::new(alloc)) {
        Ok(script) => match script.hints().get(at) {
            Some(hint) => {
                hint.space.as_slice() == space.as_bytes()
                    && hint.prefix.as_slice() == prefix.as_bytes()
            }
            None => prefix.is_empty(),
        },
        Err(_) => false,
    }
}

#[test]
fn lines_give_their_hints(rt: HostRuntime) -> Result<(), Fail> {
    let lines = "ns a http://e/\nns b http://e/\nns c http://f/\nset b:x 1";
    assert!(rt; is_hint(rt.alloc(), lines, 0, "http://e/", "a"));
    assert!(rt; is_hint(rt.alloc(), lines, 1, "http://f/", "c"));
    assert!(rt; is_hint(rt.alloc(), lines, 2, "", ""));
    Ok(())
}
