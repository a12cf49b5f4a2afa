//! Pieces of a text as they are put into a slice, one after the other.
//!
//! Each call takes the slice and a place, and gives the place after what it put. The slice takes
//! as much as it has room for, so that an empty one measures.
ghost use Rattle.std.specs.Prelude.{◌≡◌, ◌++◌, ◌∷◌, [], codes, unwrap_or, IsTrue};
ghost use Rattle.std.specs.Option.{option_copied};
ghost use Rattle.xmp_lanes.specs.Runs.{is_escaped};
ghost use Rattle.xmp_lanes.specs.declared.plain.Escape.TheVariants.{Attribute};
ghost use Rattle.xmp_write.specs.Text.{quoted_byte, attribute_text, lang_text, parse_text};
ghost use Rattle.xmp_write.specs.Placing.{Puts, spelled_name, escaped};

use xmp_lanes::{Escape, plain_run};

/// A name as it is spelled: prefix, colon, local part.
#[derive(Clone, Copy)]
pub struct Spelled<'n> {
    pub prefix: &'n [u8],
    pub local: &'n [u8],
}

/// A name of RDF's syntax.
pub fn rdf(local: &'static [u8]) -> Spelled<'static>
    ensures { spelled_name result ≡ codes "rdf:" ++ local.now }
{
    Spelled {
        prefix: b"rdf",
        local,
    }
}

/// Puts a piece.
pub fn put(to: &mut [u8], at: u64, piece: &[u8]) -> u64
    ensures { Puts to.old to.new at result piece.now }
{
    if at < to.len() as u64 {
        let start = at as usize;
        let within = piece.len().min(to.len() - start);
        to[start..start + within].copy_from_slice(&piece[..within]);
    }
    at.saturating_add(piece.len() as u64)
}

/// Puts a name.
pub fn put_name(to: &mut [u8], at: u64, name: Spelled<'_>) -> u64
    ensures { Puts to.old to.new at result (spelled_name name.entry) }
{
    let at = put(to, at, name.prefix);
    let at = put(to, at, b":");
    put(to, at, name.local)
}

/// What stands for a byte that is escaped (XML 1.0, 4.1 and 4.6).
fn reference(byte: u8) -> &'static [u8]
    requires { IsTrue (is_escaped Attribute byte) }
    ensures { result.now ≡ quoted_byte byte }
{
    match byte {
        b'&' => b"&amp;",
        b'<' => b"&lt;",
        b'>' => b"&gt;",
        b'\r' => b"&#xD;",
        b'"' => b"&quot;",
        b'\t' => b"&#x9;",
        _ => b"&#xA;",
    }
}

/// Puts a text, escaped. What stands for itself is put by runs.
pub fn put_escaped(to: &mut [u8], at: u64, text: &[u8], place: Escape) -> u64
    ensures { Puts to.old to.new at result (escaped place text.now) }
{
    let mut after = at;
    let mut from = 0;
    while from < text.len() {
        let end = from + plain_run(&text[from..], place);
        after = put(to, after, &text[from..end]);
        from = end;
        if end < text.len() {
            after = put(to, after, reference(text[end]));
            from = end + 1;
        }
    }
    after
}

/// Puts an attribute after a space.
pub fn put_attribute(to: &mut [u8], at: u64, name: Spelled<'_>, value: &[u8]) -> u64
    ensures { Puts to.old to.new at result (attribute_text (spelled_name name.entry) value.now) }
{
    let at = put(to, at, b" ");
    let at = put_name(to, at, name);
    let at = put(to, at, b"=\"");
    let at = put_escaped(to, at, value, Escape::Attribute);
    put(to, at, b"\"")
}

/// Puts the attribute `xml:lang`, where there is one.
pub fn put_lang(to: &mut [u8], at: u64, lang: Option<&[u8]>) -> u64
    ensures { Puts to.old to.new at result (lang_text (option_copied lang.entry)) }
{
    let name = Spelled {
        prefix: b"xml",
        local: b"lang",
    };
    match lang {
        Some(tag) => put_attribute(to, at, name, tag),
        None => put(to, at, b""),
    }
}

/// Puts the attributes of an element that holds elements of properties.
pub fn put_parsed(to: &mut [u8], at: u64, lang: Option<&[u8]>) -> u64
    ensures { Puts to.old to.new at result (lang_text (option_copied lang.entry) ++ parse_text) }
{
    let at = put_lang(to, at, lang);
    put(to, at, b" rdf:parseType=\"Resource\"")
}

/// Puts the attributes of an element that holds a URI.
pub fn put_resource(to: &mut [u8], at: u64, lang: Option<&[u8]>, uri: &[u8]) -> u64
    ensures { Puts to.old to.new at result (lang_text (option_copied lang.entry) ++ attribute_text (codes "rdf:resource") uri.now) }
{
    let at = put_lang(to, at, lang);
    put_attribute(to, at, rdf(b"resource"), uri)
}

/// Puts the front of a start tag.
pub fn put_start(to: &mut [u8], at: u64, name: Spelled<'_>) -> u64
    ensures { Puts to.old to.new at result (codes "<" ++ spelled_name name.entry) }
{
    let at = put(to, at, b"<");
    put_name(to, at, name)
}

/// Puts an end tag.
pub fn put_end(to: &mut [u8], at: u64, name: Spelled<'_>) -> u64
    ensures { Puts to.old to.new at result (codes "</" ++ spelled_name name.entry ++ codes ">") }
{
    let at = put(to, at, b"</");
    let at = put_name(to, at, name);
    put(to, at, b">")
}
