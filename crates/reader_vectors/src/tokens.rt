//! Each spelling and each refusal, with values from the standard.

use std::alloc::Global;
use xml_grammar::{Mode, QName, Tag, Token};
use xml_tokenizer::{TokenStop, after_mark, text_of, token_of};
use xmp_values::Rule;

// A call without a contract: what a test knows of it is what it asserts.
fn first_token<'p>(
    alloc: Global,
    mode: Mode,
    text: &'p str,
) -> Result<(Token<'p>, &'p str), TokenStop> {
    token_of(alloc, mode, text)
}

/// The kind of a token, and the text that it carries.
fn shown<'a>(token: &'a Token<'_>) -> (&'static str, &'a [u8]) {
    match token {
        Token::Declaration(None) => ("declaration", b""),
        Token::Declaration(Some(name)) => ("declaration", name.bytes()),
        Token::Instruction => ("instruction", b""),
        Token::Comment => ("comment", b""),
        Token::Cdata(text) => ("cdata", text.bytes()),
        Token::Start(
            Tag {
                name,
                empty: false,
                ..
            },
        ) => ("start", name.local.bytes()),
        Token::Start(Tag { name, .. }) => ("empty", name.local.bytes()),
        Token::End(name) => ("end", name.local.bytes()),
        Token::Reference(_) => ("reference", b""),
        Token::LineEnd => ("line end", b""),
        Token::Run(text) => ("run", text.bytes()),
    }
}

/// A mode, a text, the kind of its first token, what that carries, and the text after it.
type Spelled = (Mode, &'static str, &'static str, &'static str, &'static str);

const SPELLINGS: [Spelled; 22] = [
    (
        Mode::Start,
        "<?xml version=\"1.0\"?><a/>",
        "declaration",
        "",
        "<a/>",
    ),
    (
        Mode::Start,
        "<?xml version='1.0' encoding = \"utf-8\"?>x",
        "declaration",
        "utf-8",
        "x",
    ),
    (
        Mode::Start,
        "<?xml\tversion=\"1.1\" standalone='no' ?>",
        "declaration",
        "",
        "",
    ),
    (
        Mode::Start,
        "<?xml version='1.0' standalone='yes'?>",
        "declaration",
        "",
        "",
    ),
    (
        Mode::Start,
        "<?xml-stylesheet href=\"a\"?>.",
        "instruction",
        "",
        ".",
    ),
    (
        Mode::Outside,
        "<?xpacket begin=\"\" id=\"W5M0\"?>\n",
        "instruction",
        "",
        "\n",
    ),
    (Mode::Inside, "<?p a?b??>?>", "instruction", "", "?>"),
    (Mode::Outside, "<!---->x", "comment", "", "x"),
    (Mode::Inside, "<!-- a - <b> & -->-->", "comment", "", "-->"),
    (Mode::Inside, "<![CDATA[a]]b]]]>c", "cdata", "a]]b]", "c"),
    (
        Mode::Inside,
        "<![CDATA[a\r\nb\rc]]>",
        "cdata",
        "a\nb\nc",
        "",
    ),
    (Mode::Inside, "<rdf:li>Sea", "start", "li", "Sea"),
    (Mode::Inside, "<a b='1' c = \"2\" />x", "empty", "a", "x"),
    (Mode::Inside, "</rdf:li >x", "end", "li", "x"),
    (Mode::Inside, "&#x20AC;x", "reference", "", "x"),
    (Mode::Inside, "\r\nx", "line end", "", "x"),
    (Mode::Inside, "\rx", "line end", "", "x"),
    (Mode::Inside, "M\u{E9}r\nx<", "run", "M\u{E9}r\nx", "<"),
    (Mode::Inside, "\u{FFFD}>&", "run", "\u{FFFD}>", "&"),
    (Mode::Inside, "]]x", "run", "]]x", ""),
    (Mode::Inside, "a]b]]]>c", "run", "a]b]", "]]>c"),
    (Mode::Outside, "]]>", "run", "]]>", ""),
];

/// Whether the first token of a text is of this kind, carries this, and leaves this text.
fn is_spelled(alloc: Global, spelled: Spelled) -> bool {
    let (mode, text, kind, carried, left) = spelled;
    match first_token(alloc, mode, text) {
        Ok((token, rest)) => {
            let (is, bytes) = shown(&token);
            is == kind && bytes == carried.as_bytes() && rest == left
        }
        Err(_) => false,
    }
}

#[test]
fn reads_each_spelling(rt: HostRuntime) {
    for spelled in SPELLINGS {
        assert!(rt; is_spelled(rt.alloc(), spelled), "of {}", spelled.1);
    }
}

const REFERENCES: [(&str, char); 9] = [
    ("&lt;", '<'),
    ("&gt;", '>'),
    ("&amp;", '&'),
    ("&apos;", '\''),
    ("&quot;", '"'),
    ("&#9;", '\t'),
    ("&#xd;", '\r'),
    ("&#00233;", '\u{E9}'),
    ("&#x10FFFF;", '\u{10FFFF}'),
];

/// The character that a whole text is a reference to.
fn referred(alloc: Global, text: &str) -> Option<char> {
    match first_token(alloc, Mode::Inside, text) {
        Ok((Token::Reference(c), "")) => Some(c),
        _ => None,
    }
}

#[test]
fn reads_references(rt: HostRuntime) {
    for (text, want) in REFERENCES {
        assert!(rt; referred(rt.alloc(), text) == Some(want), "of {text}");
    }
}

fn prefix_of<'a>(name: &'a QName<'_>) -> &'a [u8] {
    match &name.prefix {
        Some(prefix) => prefix.bytes(),
        None => b"",
    }
}

/// A tag, its prefix, and its first attribute's prefix, local name and value.
type Valued = (
    &'static str,
    &'static str,
    &'static str,
    &'static str,
    &'static str,
);

const VALUES: [Valued; 5] = [
    ("<a b=\"\">", "", "", "b", ""),
    ("<a b=\"it's > \u{E9}\">", "", "", "b", "it's > \u{E9}"),
    ("<a b='a\tb\nc\r\nd\re'>", "", "", "b", "a b c d e"),
    ("<x:a b='&#10;&lt;&#xD;'>", "x", "", "b", "\n<\r"),
    ("<x:a rdf:about='u'>", "x", "rdf", "about", "u"),
];

fn is_named(name: &QName<'_>, prefix: &str, local: &str) -> bool {
    prefix_of(name) == prefix.as_bytes() && name.local.bytes() == local.as_bytes()
}

fn has_value(tag: &Tag<'_>, prefix: &str, local: &str, value: &str) -> bool {
    match tag.attributes.get(0) {
        Some(attribute) => {
            is_named(&attribute.name, prefix, local) && attribute.value.bytes() == value.as_bytes()
        }
        None => false,
    }
}

fn is_valued(alloc: Global, valued: Valued) -> bool {
    let (text, outer, prefix, local, value) = valued;
    match first_token(alloc, Mode::Inside, text) {
        Ok((Token::Start(tag), _)) => {
            is_named(&tag.name, outer, "a") && has_value(&tag, prefix, local, value)
        }
        _ => false,
    }
}

#[test]
fn reads_values(rt: HostRuntime) {
    for valued in VALUES {
        assert!(rt; is_valued(rt.alloc(), valued), "of {}", valued.0);
    }
}

const REFUSALS: [(Mode, &str, Rule); 41] = [
    (Mode::Outside, "", Rule::Unfinished),
    (Mode::Inside, "\u{1}", Rule::BadChar),
    (Mode::Outside, "\u{FFFE}", Rule::BadChar),
    (Mode::Inside, "]]></a>", Rule::BadChar),
    (Mode::Outside, "<!DOCTYPE a>", Rule::Doctype),
    (Mode::Inside, "&copy;", Rule::BadReference),
    (Mode::Inside, "&#0;", Rule::BadReference),
    (Mode::Inside, "&#xD800;", Rule::BadReference),
    (Mode::Inside, "&#x110000;", Rule::BadReference),
    (Mode::Inside, "&#4294967362;", Rule::BadReference),
    (Mode::Inside, "&#;", Rule::BadReference),
    (Mode::Inside, "&lt", Rule::BadReference),
    (Mode::Inside, "&#X41;", Rule::BadReference),
    (Mode::Inside, "&#xG;", Rule::BadReference),
    (Mode::Inside, "<", Rule::BadTag),
    (Mode::Inside, "< a>", Rule::BadTag),
    (Mode::Inside, "<a:b:c>", Rule::BadTag),
    (Mode::Inside, "<a b='1'c='2'>", Rule::BadTag),
    (Mode::Inside, "<a b=1>", Rule::BadTag),
    (Mode::Inside, "<a b>", Rule::BadTag),
    (Mode::Inside, "<a/ >", Rule::BadTag),
    (Mode::Inside, "<:a>", Rule::BadTag),
    (Mode::Inside, "<![CDATA", Rule::BadTag),
    (Mode::Inside, "<a b='<'>", Rule::BadTag),
    (Mode::Inside, "<a b='&x;'>", Rule::BadTag),
    (Mode::Inside, "</a b='1'>", Rule::BadTag),
    (Mode::Inside, "<!ELEMENT a>", Rule::BadTag),
    (Mode::Outside, "<!-- a -- b -->", Rule::BadComment),
    (Mode::Outside, "<!-- a --->", Rule::BadComment),
    (Mode::Outside, "<!-- a", Rule::BadComment),
    (Mode::Outside, "<!-->", Rule::BadComment),
    (
        Mode::Outside,
        "<?xml version=\"1.0\"?>",
        Rule::BadInstruction,
    ),
    (
        Mode::Start,
        "<?xml version=\"1.0\" encoding=\"\"?>",
        Rule::BadInstruction,
    ),
    (Mode::Start, "<?xml version=\"2.0\"?>", Rule::BadInstruction),
    (Mode::Start, "<?xml version=\"1.\"?>", Rule::BadInstruction),
    (
        Mode::Start,
        "<?xml version=\"1.0\" standalone=\"maybe\"?>",
        Rule::BadInstruction,
    ),
    (Mode::Inside, "<?p a", Rule::BadInstruction),
    (Mode::Outside, "<?XmL a?>", Rule::BadInstruction),
    (Mode::Outside, "<?a:b?>", Rule::BadInstruction),
    (Mode::Inside, "<![CDATA[\u{0}]]>", Rule::BadCdata),
    (Mode::Inside, "<![CDATA[a]]", Rule::BadCdata),
];

fn is_refused(alloc: Global, mode: Mode, text: &str, rule: Rule) -> bool {
    match first_token(alloc, mode, text) {
        Err(stop) => stop == TokenStop::Fault(rule),
        Ok(_) => false,
    }
}

#[test]
fn refuses_each_rule(rt: HostRuntime) {
    for (mode, text, rule) in REFUSALS {
        assert!(rt; is_refused(rt.alloc(), mode, text, rule), "of {text}");
    }
}

/// The first place at which no token stands, and the rule.
fn first_stop(alloc: Global, text: &str) -> Option<(Rule, usize)> {
    let mut rest = after_mark(text);
    let mut mode = Mode::Start;
    for _ in 0..text.len() {
        match first_token(alloc, mode, rest) {
            Ok((_, after)) => rest = after,
            Err(TokenStop::Fault(rule)) => {
                return Some((rule, text.len().saturating_sub(rest.len())));
            }
            Err(TokenStop::Memory) => return None,
        }
        mode = Mode::Inside;
    }
    None
}

const STOPS: [(&str, Rule, usize); 3] = [
    ("<a>]]></a>", Rule::BadChar, 3),
    ("<a>&copy;</a>", Rule::BadReference, 3),
    ("\u{FEFF}<a>&#0;</a>", Rule::BadReference, 6),
];

#[test]
fn tells_places(rt: HostRuntime) {
    for (text, rule, at) in STOPS {
        assert!(rt;
            first_stop(rt.alloc(), text) == Some((rule, at)),
            "of {text}"
        );
    }
}

fn is_of_bytes(bytes: &[u8], rule: Rule, at: u64) -> bool {
    text_of(bytes).err() == Some((rule, at))
}

#[test]
fn tells_texts_in_other_encodings(rt: HostRuntime) {
    assert!(rt; is_of_bytes(b"\xFE\xFF\0<", Rule::Utf16, 0));
    assert!(rt; is_of_bytes(b"\xFF\xFE<\0", Rule::Utf16, 0));
    assert!(rt; is_of_bytes(b"<a>\xE9</a>", Rule::NotUtf8, 3));
    assert!(rt; text_of("M\u{E9}r".as_bytes()).is_ok());
}
