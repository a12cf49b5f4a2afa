//! Trees and first faults of documents, by the standard's forms and by this project's rules.

use std::alloc::{AllocError, Global};
use std::test::Fail;
use xmp_rdf::{Meaning, RdfStop, tree_of};
use xmp_tree::{Kind, Member, Shape, Value};
use xmp_values::{Name, Rule, Text};
use xmp_xml::read;

const HEAD: &str =
    "<rdf:RDF xmlns:rdf=\"http://www.w3.org/1999/02/22-rdf-syntax-ns#\"><rdf:Description \
    xmlns:dc=\"http://purl.org/dc/elements/1.1/\" xmlns:xmp=\"http://ns.adobe.com/xap/1.0/\">";

const TAIL: &str = "</rdf:Description></rdf:RDF>";

/// A document of one top with these properties.
fn document(alloc: Global, properties: &str) -> Result<String, AllocError> {
    let mut text = String::new(alloc);
    text.push_str(HEAD)?;
    text.push_str(properties)?;
    text.push_str(TAIL)?;
    Ok(text)
}

fn prefix_of(space: &[u8]) -> &'static str {
    if space == b"http://purl.org/dc/elements/1.1/".as_slice() {
        return "dc";
    }
    if space == b"http://ns.adobe.com/xap/1.0/".as_slice() {
        return "xmp";
    }
    if space == b"http://ns.adobe.com/xap/1.0/mm/".as_slice() {
        return "xmpMM";
    }
    if space == b"http://ns.adobe.com/xap/1.0/sType/ResourceEvent#".as_slice() {
        return "stEvt";
    }
    if space == b"http://www.w3.org/1999/02/22-rdf-syntax-ns#".as_slice() {
        return "rdf";
    }
    if space == b"http://www.w3.org/XML/1998/namespace".as_slice() {
        "xml"
    } else {
        "unknown"
    }
}

fn kind_name(kind: Kind) -> &'static str {
    match kind {
        Kind::Bag => "bag",
        Kind::Seq => "seq",
        Kind::Alt => "alt",
    }
}

fn push_str(out: &mut Vec<u8>, text: &str) -> Result<(), AllocError> {
    out.extend_from_slice(text.as_bytes())
}

fn push_quoted(out: &mut Vec<u8>, sort: &str, text: &Text<'_>) -> Result<(), AllocError> {
    push_str(out, sort)?;
    push_str(out, "(")?;
    out.extend_from_slice(text.bytes())?;
    push_str(out, ")")
}

fn push_name(out: &mut Vec<u8>, name: &Name<'_>) -> Result<(), AllocError> {
    push_str(out, prefix_of(name.space.bytes()))?;
    push_str(out, ":")?;
    out.extend_from_slice(name.local.bytes())
}

/// Writes a value as its shape and its qualifiers after it.
#[cycle(show)]
fn push_value(out: &mut Vec<u8>, value: &Value<'_>) -> Result<(), AllocError> {
    match &value.shape {
        Shape::Simple(text) => push_quoted(out, "text", text)?,
        Shape::Uri(text) => push_quoted(out, "uri", text)?,
        Shape::Struct(fields) => push_members(out, "struct", fields.as_slice())?,
        Shape::Array(kind, items) => push_items(out, kind_name(*kind), items.as_slice())?,
    }
    if value.quals.len() == 0 {
        return Ok(());
    }
    push_members(out, "?", value.quals.as_slice())
}

#[cycle(show)]
fn push_items(out: &mut Vec<u8>, kind: &str, items: &[Value<'_>]) -> Result<(), AllocError> {
    push_str(out, kind)?;
    push_str(out, "[")?;
    for item in items {
        push_value(out, item)?;
        push_str(out, ";")?;
    }
    push_str(out, "]")
}

#[cycle(show)]
fn push_members(out: &mut Vec<u8>, sort: &str, members: &[Member<'_>]) -> Result<(), AllocError> {
    push_str(out, sort)?;
    push_str(out, "{")?;
    for member in members {
        push_name(out, &member.name)?;
        push_str(out, "=")?;
        push_value(out, &member.value)?;
        push_str(out, ";")?;
    }
    push_str(out, "}")
}

/// The tree of a meaning, as its about and its properties.
fn shown(alloc: Global, meaning: &Meaning<'_>) -> Result<Vec<u8>, AllocError> {
    let mut out = Vec::new(alloc);
    push_quoted(&mut out, "about", &meaning.tree.about)?;
    push_members(&mut out, "", meaning.tree.props.as_slice())?;
    Ok(out)
}

fn is_shown(alloc: Global, meaning: &Meaning<'_>, tree: &str) -> bool {
    match shown(alloc, meaning) {
        Ok(out) => out.as_slice() == tree.as_bytes(),
        Err(_) => false,
    }
}

fn has_tree(alloc: Global, text: &str, tree: &str) -> bool {
    let Ok(doc) = read(alloc, text.as_bytes()) else {
        return false;
    };
    match tree_of(alloc, doc) {
        Ok(meaning) => is_shown(alloc, &meaning, tree),
        Err(_) => false,
    }
}

/// The first fault of a document.
fn fault_of(alloc: Global, text: &str) -> Option<(Rule, u64)> {
    let Ok(doc) = read(alloc, text.as_bytes()) else {
        return None;
    };
    match tree_of(alloc, doc) {
        Err(RdfStop::Fault(rule, at)) => Some((rule, at)),
        _ => None,
    }
}

fn has_fault(alloc: Global, text: &str, rule: Rule, at: u64) -> bool {
    fault_of(alloc, text) == Some((rule, at))
}

/// Properties of one top, and the tree that they give.
const PROPERTIES: [(&str, &str); 9] = [
    ("", "about(){}"),
    (
        "<dc:format rdf:value=\"v\" xmp:Label=\"w\"/><dc:source rdf:resource=\"u\" xmp:Label=\"w\"/>\
         <dc:relation xml:lang=\"en\"/><dc:coverage xmp:Label=\"w\"/>",
        "about(){dc:format=text(v)?{xmp:Label=text(w);};dc:source=uri(u)?{xmp:Label=text(w);};\
         dc:relation=text()?{xml:lang=text(en);};dc:coverage=struct{xmp:Label=text(w);};}",
    ),
    (
        "<dc:creator><xmp:Person dc:format=\"v\"/></dc:creator>",
        "about(){dc:creator=struct{dc:format=text(v);}\
         ?{rdf:type=uri(http://ns.adobe.com/xap/1.0/Person);};}",
    ),
    (
        "<dc:a>x<!-- -->y</dc:a><dc:b> </dc:b>",
        "about(){dc:a=text(xy);dc:b=text( );}",
    ),
    (
        "<dc:a rdf:parseType=\"Resource\"> <dc:b>1</dc:b> <dc:c/> </dc:a>",
        "about(){dc:a=struct{dc:b=text(1);dc:c=text();};}",
    ),
    (
        "<dc:a xml:lang=\"en\" rdf:parseType=\"Resource\"><xmp:Label>w</xmp:Label>\
         <rdf:value>v</rdf:value><rdf:type rdf:resource=\"u\"/></dc:a>",
        "about(){dc:a=text(v)?{xml:lang=text(en);xmp:Label=text(w);rdf:type=uri(u);};}",
    ),
    (
        "<dc:a><rdf:Description rdf:value=\"v\" xmp:Label=\"w\"><dc:b>1</dc:b></rdf:Description></dc:a>",
        "about(){dc:a=text(v)?{xmp:Label=text(w);dc:b=text(1);};}",
    ),
    (
        "<dc:a xml:lang=\"en\"><rdf:Bag><rdf:li>1</rdf:li><rdf:li rdf:resource=\"u\"/></rdf:Bag></dc:a>",
        "about(){dc:a=bag[text(1);uri(u);]?{xml:lang=text(en);};}",
    ),
    (
        "<dc:a rdf:parseType=\"Resource\"><rdf:value rdf:parseType=\"Resource\"><dc:b>1</dc:b>\
         </rdf:value><dc:c>2</dc:c></dc:a>",
        "about(){dc:a=struct{dc:b=text(1);}?{dc:c=text(2);};}",
    ),
];

#[test]
fn the_forms_of_properties_give_their_values(rt: HostRuntime) -> Result<(), Fail> {
    for (properties, tree) in PROPERTIES {
        let text = document(rt.alloc(), properties)?;
        assert!(rt;
            has_tree(rt.alloc(), text.as_str(), tree),
            "of {properties}"
        );
    }
    Ok(())
}

/// Properties of one top, a rule that one of them or an element in it breaks, and its place
/// after the head.
const BROKEN: [(&str, Rule, u64); 12] = [
    ("<a/>", Rule::NoNamespace, 0),
    ("<dc:a b=\"\"/>", Rule::NoNamespace, 0),
    ("<dc:a xml:space=\"default\"/>", Rule::XmlName, 0),
    ("<rdf:type rdf:resource=\"u\"/>", Rule::RdfName, 0),
    ("<dc:a dc:b=\"\">x</dc:a>", Rule::RefusedAttribute, 0),
    ("<dc:a rdf:parseType=\"Literal\"/>", Rule::BadParseType, 0),
    ("<dc:a>x<rdf:Bag/></dc:a>", Rule::Mixed, 0),
    ("<dc:a><dc:b/><dc:c/></dc:a>", Rule::ManyNodes, 0),
    ("<dc:a><rdf:List/></dc:a>", Rule::BadContainer, 6),
    ("<dc:a><rdf:Bag><dc:b/></rdf:Bag></dc:a>", Rule::BadItem, 15),
    (
        "<dc:a rdf:value=\"\" rdf:resource=\"\"/>",
        Rule::TwiceValue,
        0,
    ),
    (
        "<dc:a rdf:parseType=\"Resource\"><dc:b/><dc:b/></dc:a>",
        Rule::Twice,
        0,
    ),
];

#[test]
fn the_first_fault_in_a_property_is_named(rt: HostRuntime) -> Result<(), Fail> {
    for (properties, rule, at) in BROKEN {
        let text = document(rt.alloc(), properties)?;
        let place = HEAD.len() as u64 + at;
        assert!(rt;
            has_fault(rt.alloc(), text.as_str(), rule, place),
            "of {properties}"
        );
    }
    Ok(())
}

/// Documents, a rule that their root, `rdf:RDF` or a top breaks, and its place.
const FAULTS: [(&str, Rule, u64); 6] = [
    ("<a/>", Rule::NoRdf, 0),
    (
        "<x:xmpmeta xmlns:x=\"adobe:ns:meta/\"><x:a/></x:xmpmeta>",
        Rule::NoRdf,
        0,
    ),
    (
        "<rdf:RDF xmlns:rdf=\"http://www.w3.org/1999/02/22-rdf-syntax-ns#\"><rdf:Seq/></rdf:RDF>",
        Rule::NotDescription,
        65,
    ),
    (
        "<rdf:RDF xmlns:rdf=\"http://www.w3.org/1999/02/22-rdf-syntax-ns#\">\
         <rdf:Description rdf:about=\"a\"/><rdf:Description/><rdf:Description about=\"b\"/></rdf:RDF>",
        Rule::AboutDiffers,
        115,
    ),
    (
        "<rdf:RDF xmlns:rdf=\"http://www.w3.org/1999/02/22-rdf-syntax-ns#\"><rdf:Description \
         xmlns:dc=\"http://purl.org/dc/elements/1.1/\" dc:format=\"a\"><dc:format>b</dc:format>\
         </rdf:Description></rdf:RDF>",
        Rule::Twice,
        65,
    ),
    (
        "<rdf:RDF xmlns:rdf=\"http://www.w3.org/1999/02/22-rdf-syntax-ns#\">x</rdf:RDF>",
        Rule::Mixed,
        0,
    ),
];

#[test]
fn the_first_fault_around_properties_is_named(rt: HostRuntime) {
    for (text, rule, at) in FAULTS {
        assert!(rt; has_fault(rt.alloc(), text, rule, at), "of {text}");
    }
}

/// A property with so many others inside it, one in the other.
fn nested(alloc: Global, depth: u64) -> Result<String, AllocError> {
    let mut text = String::new(alloc);
    for _ in 1..depth {
        text.push_str("<dc:a rdf:parseType=\"Resource\">")?;
    }
    text.push_str("<dc:a/>")?;
    for _ in 1..depth {
        text.push_str("</dc:a>")?;
    }
    Ok(text)
}

fn is_too_deep(alloc: Global, properties: &str) -> Result<bool, AllocError> {
    let text = document(alloc, properties)?;
    Ok(match fault_of(alloc, text.as_str()) {
        Some((rule, _)) => rule == Rule::TreeDeep,
        None => false,
    })
}

#[test]
fn a_property_at_depth_25_is_too_deep(rt: HostRuntime) -> Result<(), Fail> {
    let most = nested(rt.alloc(), 24)?;
    assert!(rt; !is_too_deep(rt.alloc(), most.as_str())?);
    let more = nested(rt.alloc(), 25)?;
    assert!(rt; is_too_deep(rt.alloc(), more.as_str())?);
    Ok(())
}

const PACKET: &str = "<?xpacket begin=\"\u{FEFF}\" id=\"W5M0MpCehiHzreSzNTczkc9d\"?>
<x:xmpmeta xmlns:x=\"adobe:ns:meta/\" x:xmptk=\"Example 1.0\">
 <rdf:RDF xmlns:rdf=\"http://www.w3.org/1999/02/22-rdf-syntax-ns#\">
  <rdf:Description rdf:about=\"\"
    xmlns:xmp=\"http://ns.adobe.com/xap/1.0/\"
    xmlns:dc=\"http://purl.org/dc/elements/1.1/\"
    xmlns:xmpMM=\"http://ns.adobe.com/xap/1.0/mm/\"
    xmlns:stEvt=\"http://ns.adobe.com/xap/1.0/sType/ResourceEvent#\"
   xmp:CreateDate=\"2021-03-04T05:06:07+01:00\"
   dc:format=\"image/jpeg\">
   <xmpMM:History>
    <rdf:Seq>
     <rdf:li stEvt:action=\"saved\" stEvt:changed=\"/metadata\"/>
    </rdf:Seq>
   </xmpMM:History>
   <dc:title>
    <rdf:Alt>
     <rdf:li xml:lang=\"en\">Sea</rdf:li>
     <rdf:li xml:lang=\"de\">Meer</rdf:li>
     <rdf:li xml:lang=\"fr\">Mer</rdf:li>
    </rdf:Alt>
   </dc:title>
  </rdf:Description>
 </rdf:RDF>
</x:xmpmeta>
<?xpacket end=\"w\"?>
";

const PACKET_TREE: &str = "about(){xmp:CreateDate=text(2021-03-04T05:06:07+01:00);\
    dc:format=text(image/jpeg);\
    xmpMM:History=seq[struct{stEvt:action=text(saved);stEvt:changed=text(/metadata);};];\
    dc:title=alt[text(Sea)?{xml:lang=text(en);};text(Meer)?{xml:lang=text(de);};\
    text(Mer)?{xml:lang=text(fr);};];}";

#[test]
fn a_usual_packet_has_its_tree(rt: HostRuntime) {
    assert!(rt; has_tree(rt.alloc(), PACKET, PACKET_TREE));
}

#[test]
fn rdf_without_tops_has_the_empty_tree(rt: HostRuntime) {
    let text = "<rdf:RDF xmlns:rdf=\"http://www.w3.org/1999/02/22-rdf-syntax-ns#\"/>";
    assert!(rt; has_tree(rt.alloc(), text, "about(){}"));
}

/// Two tops with the note, in digits that aren't capitals, and a property in each.
const NOTED: &str =
    "<rdf:RDF xmlns:rdf=\"http://www.w3.org/1999/02/22-rdf-syntax-ns#\"><rdf:Description \
    xmlns:n=\"http://ns.adobe.com/xmp/note/\" xmlns:dc=\"http://purl.org/dc/elements/1.1/\" dc:a=\"1\" \
    n:HasExtendedXMP=\"0123456789abcdef0123456789ABCDEF\"/><rdf:Description \
    xmlns:dc=\"http://purl.org/dc/elements/1.1/\" rdf:about=\"u\"><dc:b>2</dc:b></rdf:Description></rdf:RDF>";

fn has_note(meaning: &Meaning<'_>) -> bool {
    match &meaning.note {
        Some(note) => note.bytes() == b"0123456789ABCDEF0123456789ABCDEF".as_slice(),
        None => false,
    }
}

fn has_noted(alloc: Global, meaning: &Meaning<'_>) -> bool {
    has_note(meaning)
        && is_shown(alloc, meaning, "about(u){dc:a=text(1);dc:b=text(2);}")
        && meaning.places.as_slice() == [65, 303].as_slice()
        && meaning.hints.len() == 3
}

fn is_noted(alloc: Global) -> bool {
    let Ok(doc) = read(alloc, NOTED.as_bytes()) else {
        return false;
    };
    match tree_of(alloc, doc) {
        Ok(meaning) => has_noted(alloc, &meaning),
        Err(_) => false,
    }
}

#[test]
fn the_note_stands_apart_and_each_property_has_its_place(rt: HostRuntime) {
    assert!(rt; is_noted(rt.alloc()));
}
