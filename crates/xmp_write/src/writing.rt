//! The canonical text of a tree and its packet (ISO 16684-1, 7.3 and 7.4). Nothing here takes
//! memory.
ghost use Rattle.std.specs.Prelude.{◌≡◌, ◌+◌, ◌-◌, ◌^◌, ◌<◌, ◌≤◌, ◌++◌, Some, length, min};
ghost use Rattle.xmp_write.specs.Text.{declared_text, lines_text, written_text};
ghost use Rattle.xmp_write.specs.Written.{note_members, written_props};
ghost use Rattle.xmp_write.specs.WrittenPackets.{least_len, packet, pad, pad_byte};
ghost use Rattle.xmp_write.specs.Placing.{Puts};

use crate::forms::Form;
use crate::placing::{Spelled, put, put_attribute, rdf};
use crate::prefixes::Prefixes;
use crate::values::{put_member, put_simple};
use xmp_tree::{Member, Tree};
use xmp_values::{Digits, Hint};

/// Puts the declarations of prefixes, each an attribute (Namespaces in XML 1.0, section 3).
pub fn put_declarations(to: &mut [u8], at: u64, hints: &[Hint]) -> u64
    ensures { Puts to.old to.new at result (declared_text hints.now) }
{
    let mut after = at;
    for hint in hints {
        let name = Spelled {
            prefix: b"xmlns",
            local: hint.prefix.as_slice(),
        };
        after = put_attribute(to, after, name, hint.space.as_slice());
    }
    after
}

/// Puts properties, each on a line.
fn put_lines(to: &mut [u8], at: u64, prefixes: &Prefixes<'_>, props: &[Member<'_>]) -> u64
    ensures { Puts to.old to.new at result (lines_text prefixes.now props.now) }
{
    let mut after = at;
    for member in props {
        after = put_member(to, after, prefixes, member);
        after = put(to, after, b"\n");
    }
    after
}

/// Puts a note of these digits as a property.
pub fn put_note_line(to: &mut [u8], at: u64, prefixes: &Prefixes<'_>, digits: &[u8]) -> u64
    ensures { Puts to.old to.new at result (lines_text prefixes.now (note_members (Some digits.now))) }
{
    let name = Spelled {
        prefix: prefixes.prefix_of(b"http://ns.adobe.com/xmp/note/"),
        local: b"HasExtendedXMP",
    };
    let at = put_simple(to, at, name, None, digits);
    put(to, at, b"\n")
}

/// Puts the note as a property, where it is written.
fn put_note(to: &mut [u8], at: u64, prefixes: &Prefixes<'_>, note: &Option<Digits>) -> u64
    ensures { Puts to.old to.new at result (lines_text prefixes.now (note_members note.now)) }
{
    match note {
        Some(digits) => put_note_line(to, at, prefixes, digits.bytes()),
        None => put(to, at, b""),
    }
}

/// Puts the text of a tree in a form.
fn put_text(to: &mut [u8], at: u64, tree: &Tree<'_>, prefixes: &Prefixes<'_>, form: &Form) -> u64
    requires { form.now.first + form.now.count ≤ length tree.now.props }
    ensures { Puts to.old to.new at result (written_text prefixes.now tree.now form.now) }
{
    let props = tree.props.as_slice();
    let at = put(
        to,
        at,
        b"<x:xmpmeta xmlns:x=\"adobe:ns:meta/\">\n<rdf:RDF xmlns:rdf=\"http://www.w3.org/1999/02/22-rdf-syntax-ns#\">\n<rdf:Description",
    );
    let at = put_attribute(to, at, rdf(b"about"), tree.about.bytes());
    let at = put_declarations(to, at, prefixes.as_slice());
    let at = put(to, at, b">\n");
    let at = put_note(to, at, prefixes, &form.note);
    let at = put_lines(
        to,
        at,
        prefixes,
        &props[form.first..form.first + form.count],
    );
    put(to, at, b"</rdf:Description>\n</rdf:RDF>\n</x:xmpmeta>\n")
}

/// The length of the text of a tree in a form, in bytes, or the greatest u64 where the text is
/// longer.
pub fn measure(tree: &Tree<'_>, prefixes: &Prefixes<'_>, form: &Form) -> u64
    requires { form.now.first + form.now.count ≤ length tree.now.props }
    ensures { result ≡ min (length (written_text prefixes.now tree.now form.now)) (2 ^ 64 - 1) }
{
    let mut none = [0; 0];
    put_text(&mut none, 0, tree, prefixes, form)
}

/// Writes the text of a tree in a form into a slice of its length.
pub fn write_into(tree: &Tree<'_>, prefixes: &Prefixes<'_>, form: &Form, to: &mut [u8])
    requires part { form.now.first + form.now.count ≤ length tree.now.props }
    requires room { length to.old ≡ length (written_text prefixes.now tree.now form.now) }
    ensures { to.new ≡ written_text prefixes.now tree.now form.now }
{
    let _ = put_text(to, 0, tree, prefixes, form);
}

/// Writes the packet of a tree in a form into a slice: header, text, padding up to the slice's
/// length, trailer. The slice has at least 73 bytes more than the text.
pub fn packet_into(tree: &Tree<'_>, prefixes: &Prefixes<'_>, form: &Form, to: &mut [u8])
    requires part { form.now.first + form.now.count ≤ length tree.now.props }
    requires room { least_len prefixes.now tree.now form.now ≤ length to.old }
    ensures { to.new ≡ packet prefixes.now tree.now form.now (length to.old) }
{
    let end = to.len() - 19;
    let at = put(
        to,
        0,
        b"<?xpacket begin=\"\xEF\xBB\xBF\" id=\"W5M0MpCehiHzreSzNTczkc9d\"?>\n",
    );
    let at = put_text(to, at, tree, prefixes, form);
    pad_into(&mut to[at as usize..end]);
    let _ = put(to, end as u64, b"<?xpacket end=\"w\"?>");
}

/// A byte of the padding: LF at each hundredth and at the last, else a space.
fn pad_byte(len: usize, at: usize) -> u8
    requires { at < len }
    ensures { result ≡ pad_byte len at }
{
    if (at + 1) % 100 == 0 || at + 1 == len {
        b'\n'
    } else {
        b' '
    }
}

/// Fills a slice with padding.
pub fn pad_into(to: &mut [u8])
    ensures { to.new ≡ pad (length to.old) }
{
    let len = to.len();
    for at in 0..len {
        to[at] = pad_byte(len, at);
    }
}
