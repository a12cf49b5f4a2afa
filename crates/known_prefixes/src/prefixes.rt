//! From a namespace to its prefix.
ghost use Rattle.std.specs.Prelude.{◌≡◌, length};
ghost use Rattle.std.specs.Option.{option_copied};
ghost use Rattle.known_prefixes.specs.Prefixes.{fixed_prefix, known_prefix, is_fixed, begins_xml};

/// The prefix of a namespace that is never declared with the others.
#[tactic(auto, unfolding(xmp_values::specs::Spaces::rdf_space, xmp_values::specs::Spaces::xml_space, xmp_values::specs::Spaces::meta_space))]
pub fn fixed_prefix(space: &[u8]) -> Option<&'static [u8]>
    ensures { option_copied result ≡ fixed_prefix space.now }
{
    if space == b"http://www.w3.org/1999/02/22-rdf-syntax-ns#".as_slice() {
        Some(b"rdf".as_slice())
    } else if space == b"http://www.w3.org/XML/1998/namespace".as_slice() {
        Some(b"xml".as_slice())
    } else if space == b"adobe:ns:meta/".as_slice() {
        Some(b"x".as_slice())
    } else {
        None
    }
}

/// Whether the namespace is never declared with the others.
pub fn is_fixed(space: &[u8]) -> bool
    ensures { result ≡ is_fixed space.now }
{
    fixed_prefix(space).is_some()
}

/// The known prefix of a namespace.
#[tactic(auto, unfolding(xmp_values::specs::Spaces::rdf_space, xmp_values::specs::Spaces::xml_space, xmp_values::specs::Spaces::meta_space))]
pub fn known_prefix(space: &[u8]) -> Option<&'static [u8]>
    ensures { option_copied result ≡ known_prefix space.now }
{
    if let Some(prefix) = fixed_prefix(space) {
        Some(prefix)
    } else if space == b"http://purl.org/dc/elements/1.1/".as_slice() {
        Some(b"dc".as_slice())
    } else if space == b"http://ns.adobe.com/xap/1.0/".as_slice() {
        Some(b"xmp".as_slice())
    } else if space == b"http://ns.adobe.com/xap/1.0/mm/".as_slice() {
        Some(b"xmpMM".as_slice())
    } else if space == b"http://ns.adobe.com/xap/1.0/rights/".as_slice() {
        Some(b"xmpRights".as_slice())
    } else if space == b"http://ns.adobe.com/photoshop/1.0/".as_slice() {
        Some(b"photoshop".as_slice())
    } else if space == b"http://ns.adobe.com/tiff/1.0/".as_slice() {
        Some(b"tiff".as_slice())
    } else if space == b"http://ns.adobe.com/exif/1.0/".as_slice() {
        Some(b"exif".as_slice())
    } else if space == b"http://ns.adobe.com/xmp/note/".as_slice() {
        Some(b"xmpNote".as_slice())
    } else if space == b"http://iptc.org/std/Iptc4xmpCore/1.0/xmlns/".as_slice() {
        Some(b"Iptc4xmpCore".as_slice())
    } else {
        None
    }
}

/// Whether the prefix begins with `xml`, in any case, which is reserved.
pub fn begins_xml(prefix: &[u8]) -> bool
    ensures { result ≡ begins_xml prefix.now }
{
    prefix.len() >= 3 && prefix[..3].eq_ignore_ascii_case(b"xml")
}
