ghost use Rattle.std.specs.Prelude.{◌≡◌, vec_len};

use crate::made_trees::{
    DC, array, creator, hinted, item, member, more, one, qualified, simple, structure, text,
    tree_of, uri, usual,
};
use std::alloc::AllocGlobal;
use std::process::Abort;
use xmp_paths::Path;
use xmp_tree::{Kind, Member, Members, Tree};
use xmp_values::{Bytes, Digits, Hints, Text};
use xmp_write::{
    Form, Prefixes, Split, SplitStop, lines, measure, packet_into, pad_into, value_lines,
    write_into,
};

const FRONT: &str =
    "<x:xmpmeta xmlns:x=\"adobe:ns:meta/\">\n<rdf:RDF xmlns:rdf=\"http://www.w3.org/1999/02/22-rdf-syntax-ns#\">\n\
<rdf:Description rdf:about=\"\"";

const END: &str = "</rdf:Description>\n</rdf:RDF>\n</x:xmpmeta>\n";

fn plain_tree(rt: &(impl Abort + AllocGlobal), props: Members<'static>) -> Tree<'static> {
    tree_of(rt, Text::raw(b""), props)
}

fn prefixes_in<'t>(
    rt: &(impl Abort + AllocGlobal),
    tree: &'t Tree<'_>,
    hints: &Hints,
) -> Prefixes<'t> {
    Prefixes::of(rt.alloc(), tree, hints, &Form::whole(tree)).expect(rt, "memory")
}

/// So many zero bytes.
fn zeros(rt: &(impl Abort + AllocGlobal), len: usize) -> Vec<u8>
    ensures { vec_len result ≡ len }
{
    let zeros = vec![in rt.alloc(); 0; len];
    zeros.expect(rt, "memory")
}

/// The text of a tree in a form, whose properties are there.
fn written(
    rt: &(impl Abort + AllocGlobal),
    tree: &Tree<'_>,
    hints: &Hints,
    form: &Form,
) -> Vec<u8> {
    let props = tree.props.len();
    assert!(rt; form.first <= props && form.count <= props - form.first);
    let prefixes = Prefixes::of(rt.alloc(), tree, hints, form).expect(rt, "memory");
    let len = measure(tree, &prefixes, form);
    assert!(rt; len < 100_000);
    let mut text = zeros(rt, len as usize);
    write_into(tree, &prefixes, form, text.as_mut_slice());
    text
}

/// Whether a text is the front, this middle and the end.
fn is_whole(text: &[u8], middle: &str) -> bool {
    match text.strip_prefix(FRONT.as_bytes()) {
        Some(rest) => rest.strip_suffix(END.as_bytes()) == Some(middle.as_bytes()),
        None => false,
    }
}

/// Whether the text of properties has this middle, from the declarations on.
fn has_text(
    rt: &(impl Abort + AllocGlobal),
    props: Members<'static>,
    hints: &Hints,
    middle: &str,
) -> bool {
    let tree = plain_tree(rt, props);
    let text = written(rt, &tree, hints, &Form::whole(&tree));
    is_whole(text.as_slice(), middle)
}

/// Whether the text of the one property of Dublin Core is this element.
fn has_element(rt: &(impl Abort + AllocGlobal), property: Member<'static>, element: &str) -> bool {
    let middle = format!(in rt.alloc(); " xmlns:dc=\"{DC}\">\n{element}\n");
    let middle = middle.expect(rt, "memory");
    has_text(
        rt,
        one(rt, property),
        &Hints::new(rt.alloc()),
        middle.as_str(),
    )
}

#[test]
fn bytes_are_escaped(rt: HostRuntime) {
    let source = text(rt.alloc(), "a\rb\nc\td&e<f]]>\u{1F600}");
    let element = "<dc:source>a&#xD;b\nc\td&amp;e&lt;f]]&gt;\u{1F600}</dc:source>";
    assert!(rt; has_element(&rt, member(DC, "source", source), element));
    let source = uri(rt.alloc(), "a\"b\tc\nd\re&f<g>h");
    let element = "<dc:source rdf:resource=\"a&quot;b&#x9;c&#xA;d&#xD;e&amp;f&lt;g&gt;h\"/>";
    assert!(rt; has_element(&rt, member(DC, "source", source), element));
}

#[test]
fn structures_are_written(rt: HostRuntime) {
    let element =
        "<dc:creator rdf:parseType=\"Resource\"><rdf:value rdf:parseType=\"Resource\"><dc:format>v</dc:format></rdf:value>\
<rdf:type rdf:resource=\"http://ns.adobe.com/xap/1.0/Person\"/></dc:creator>";
    assert!(rt; has_element(&rt, creator(&rt), element));
}

#[test]
fn qualified_items_are_written(rt: HostRuntime) {
    let alloc = rt.alloc();
    let label = member(DC, "source", text(alloc, "q"));
    let items = item(&rt, qualified(&rt, text(alloc, "x"), label));
    let subject = member(DC, "subject", array(alloc, Kind::Bag, items));
    let element = "<dc:subject><rdf:Bag><rdf:li rdf:parseType=\"Resource\"><rdf:value>x</rdf:value>\
<dc:source>q</dc:source></rdf:li></rdf:Bag></dc:subject>";
    assert!(rt; has_element(&rt, subject, element));
}

/// The usual packet's text, from the declarations on.
const USUAL: &str =
    " xmlns:xmp=\"http://ns.adobe.com/xap/1.0/\" xmlns:xmpMM=\"http://ns.adobe.com/xap/1.0/mm/\" xmlns:stEvt=\"urn:evt\" \
xmlns:dc=\"http://purl.org/dc/elements/1.1/\">\n<xmp:CreateDate>2021-03-04T05:06:07+01:00</xmp:CreateDate>\n\
<xmpMM:History><rdf:Seq><rdf:li rdf:parseType=\"Resource\"><stEvt:action>saved</stEvt:action><stEvt:changed>/metadata</stEvt:changed></rdf:li></rdf:Seq>\
</xmpMM:History>\n<dc:title><rdf:Alt><rdf:li xml:lang=\"x-default\">Sea</rdf:li><rdf:li xml:lang=\"de\">Meer</rdf:li></rdf:Alt></dc:title>\n";

/// Its lines.
const USUAL_LINES: &str =
    "about \nxmp:CreateDate text 2021-03-04T05:06:07+01:00\nxmpMM:History seq 1\nxmpMM:History[1] struct 2\n\
xmpMM:History[1]/stEvt:action text saved\nxmpMM:History[1]/stEvt:changed text /metadata\ndc:title alt 2\n\
dc:title[1] text Sea\ndc:title[1]/?xml:lang text x-default\ndc:title[2] text Meer\ndc:title[2]/?xml:lang text de\n";

/// Whether the lines of properties are these.
fn has_lines(
    rt: &(impl Abort + AllocGlobal),
    props: Members<'static>,
    hints: &Hints,
    wanted: &str,
) -> bool {
    let tree = plain_tree(rt, props);
    let prefixes = prefixes_in(rt, &tree, hints);
    let shown = lines(rt.alloc(), &tree, &prefixes).expect(rt, "memory");
    shown.as_slice() == wanted.as_bytes()
}

#[test]
fn a_usual_packet_is_written_and_shown(rt: HostRuntime) {
    let hints = hinted(&rt, &[("urn:evt", "stEvt")]);
    assert!(rt; has_text(&rt, usual(&rt), &hints, USUAL));
    assert!(rt; has_lines(&rt, usual(&rt), &hints, USUAL_LINES));
}

#[test]
fn lines_are_shown(rt: HostRuntime) {
    let alloc = rt.alloc();
    let hints = Hints::new(alloc);
    let person =
        "about \ndc:creator struct 1\ndc:creator/?rdf:type uri http://ns.adobe.com/xap/1.0/Person\ndc:creator/dc:format text v\n";
    assert!(rt; has_lines(&rt, one(&rt, creator(&rt)), &hints, person));
    let source = member(DC, "source", text(alloc, "a\rb\nc\td&e<f]]>\\\u{1F600}"));
    let escaped = "about \ndc:source text a\\rb\\nc\\td&e<f]]>\\\\\u{1F600}\n";
    assert!(rt; has_lines(&rt, one(&rt, source), &hints, escaped));
}

#[test]
fn prefixes_are_given_by_first_use(rt: HostRuntime) {
    let alloc = rt.alloc();
    let fields = one(&rt, member("urn:f", "p", text(alloc, "x")));
    let value = qualified(
        &rt,
        structure(alloc, fields),
        member("urn:q", "p", text(alloc, "x")),
    );
    let used = "about \nns1:p struct 1\nns1:p/?ns3:p text x\nns1:p/ns2:p text x\n";
    assert!(rt;
        has_lines(
            &rt,
            one(&rt, member("urn:a", "p", value)),
            &Hints::new(alloc),
            used
        )
    );
}

/// Whether two namespaces get these prefixes.
fn get_prefixes(
    rt: &(impl Abort + AllocGlobal),
    spaces: (&'static str, &'static str),
    hints: &Hints,
    wanted: (&str, &str),
) -> bool {
    let first = member(spaces.0, "p", text(rt.alloc(), "x"));
    let second = member(spaces.1, "p", text(rt.alloc(), "x"));
    let tree = plain_tree(rt, more(rt, one(rt, first), second));
    let prefixes = prefixes_in(rt, &tree, hints);
    prefixes.prefix_of(spaces.0.as_bytes()) == wanted.0.as_bytes()
        && prefixes.prefix_of(spaces.1.as_bytes()) == wanted.1.as_bytes()
}

#[test]
fn namespaces_get_prefixes(rt: HostRuntime) {
    let hints = hinted(&rt, &[("urn:z", "ns1"), ("urn:y", "ns3")]);
    assert!(rt; get_prefixes(&rt, ("urn:a", "urn:b"), &hints, ("ns2", "ns4")));
    let hints = hinted(
        &rt,
        &[
            ("urn:a", "dc"),
            ("urn:b", "xMl.p"),
            ("urn:c", "p"),
            ("urn:d", "p"),
        ],
    );
    assert!(rt; get_prefixes(&rt, ("urn:a", "urn:b"), &hints, ("ns1", "ns2")));
    assert!(rt; get_prefixes(&rt, ("urn:c", "urn:d"), &hints, ("p", "ns1")));
}

const NOTED: &str = " xmlns:xmpNote=\"http://ns.adobe.com/xmp/note/\" xmlns:ns1=\"urn:a\">\n\
<xmpNote:HasExtendedXMP>0123456789ABCDEF0123456789ABCDEF</xmpNote:HasExtendedXMP>\n<ns1:b>x</ns1:b>\n";

#[test]
fn a_form_is_written_with_its_note(rt: HostRuntime) {
    let first = member(DC, "a", text(rt.alloc(), "x"));
    let second = member("urn:a", "b", text(rt.alloc(), "x"));
    let tree = plain_tree(&rt, more(&rt, one(&rt, first), second));
    let form = Form {
        first: 1,
        count: 1,
        note: Digits::read(b"0123456789ABCDEF0123456789ABCDEF"),
    };
    let text = written(&rt, &tree, &Hints::new(rt.alloc()), &form);
    assert!(rt; is_whole(text.as_slice(), NOTED));
}

/// The sample, whose text has 255 bytes.
fn sample(rt: &(impl Abort + AllocGlobal)) -> Tree<'static> {
    let format = member(DC, "format", text(rt.alloc(), "image/jpeg"));
    plain_tree(rt, one(rt, format))
}

/// Its packet, of this length.
fn packet(rt: &(impl Abort + AllocGlobal), len: usize) -> Vec<u8> {
    let tree = sample(rt);
    let form = Form::whole(&tree);
    let prefixes = prefixes_in(rt, &tree, &Hints::new(rt.alloc()));
    assert!(rt; measure(&tree, &prefixes, &form) == 255 && len >= 328);
    let mut packet = zeros(rt, len);
    packet_into(&tree, &prefixes, &form, packet.as_mut_slice());
    packet
}

const BEGIN: &str = "<?xpacket begin=\"\u{FEFF}\" id=\"W5M0MpCehiHzreSzNTczkc9d\"?>\n<x:xmpmeta";

/// Whether these bytes of a packet are spaces.
fn are_spaces(packet: &[u8], from: usize, to: usize) -> bool {
    match packet.get(from..to) {
        Some(bytes) => bytes.iter().all(|byte| *byte == b' '),
        None => false,
    }
}

#[test]
fn packets_are_padded(rt: HostRuntime) {
    let least = packet(&rt, 328);
    let padded = packet(&rt, 430);
    assert!(rt; least.as_slice().starts_with(BEGIN.as_bytes()));
    assert!(rt;
        least
            .as_slice()
            .ends_with(b"</x:xmpmeta>\n<?xpacket end=\"w\"?>")
    );
    assert!(rt; padded.as_slice().get(..309) == least.as_slice().get(..309));
    assert!(rt; are_spaces(padded.as_slice(), 309, 408));
    assert!(rt; padded.as_slice().ends_with(b" \n \n<?xpacket end=\"w\"?>"));
}

/// A text of so many letters.
fn letters(rt: &(impl Abort + AllocGlobal), count: usize) -> Text<'static> {
    let letters = vec![in rt.alloc(); b'a'; count];
    let letters = Bytes::from_vec(letters.expect(rt, "memory"));
    Text::own(rt.alloc(), letters).expect(rt, "memory")
}

/// The split of a tree whose about and whose second property have so many letters, and whose first is
/// the sample's.
fn split_of(
    rt: &(impl Abort + AllocGlobal),
    about: usize,
    source: usize,
) -> Result<Split, SplitStop> {
    let alloc = rt.alloc();
    let format = member(DC, "format", text(alloc, "image/jpeg"));
    let source = member(DC, "source", simple(alloc, letters(rt, source)));
    let tree = tree_of(rt, letters(rt, about), more(rt, one(rt, format), source));
    Split::of(alloc, &tree, &Hints::new(alloc), 65_502)
}

#[test]
fn long_trees_are_split(rt: HostRuntime) {
    let split = Split {
        count: 1,
        front: 383,
        rest: 70_245,
    };
    assert!(rt; split_of(&rt, 0, 70_000) == Ok(split));
    assert!(rt; split_of(&rt, 65_200, 0) == Err(SplitStop::TooLong(65_578)));
}

/// Whether the lines of what stands at a path of the usual tree are these.
fn is_shown(rt: &(impl Abort + AllocGlobal), path: &str, wanted: &str) -> bool {
    let hints = hinted(rt, &[("urn:evt", "stEvt")]);
    let tree = plain_tree(rt, usual(rt));
    let prefixes = prefixes_in(rt, &tree, &hints);
    let path = Path::read(rt.alloc(), path.as_bytes(), &hints).expect(rt, "a path");
    let shown = value_lines(rt.alloc(), &tree, &path, &prefixes).expect(rt, "memory");
    shown.as_slice() == wanted.as_bytes()
}

#[test]
fn what_stands_at_a_path_is_shown(rt: HostRuntime) {
    let event = "xmpMM:History[1] struct 2\nxmpMM:History[1]/stEvt:action text saved\n\
xmpMM:History[1]/stEvt:changed text /metadata\n";
    assert!(rt; is_shown(&rt, "xmpMM:History[1]", event));
    let title = "dc:title[2] text Meer\ndc:title[2]/?xml:lang text de\n";
    assert!(rt; is_shown(&rt, "dc:title[DE]", title));
    assert!(rt; is_shown(&rt, "dc:title[3]", ""));
}
