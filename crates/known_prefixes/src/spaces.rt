//! From a prefix to its namespace.
ghost use Rattle.std.specs.Prelude.{◌≡◌};
ghost use Rattle.std.specs.Option.{option_copied};
ghost use Rattle.known_prefixes.specs.Prefixes.{known_space, is_known};

/// The namespace of a known prefix.
#[tactic(auto, unfolding(xmp_values::specs::Spaces::rdf_space, xmp_values::specs::Spaces::xml_space, xmp_values::specs::Spaces::meta_space))]
pub fn known_space(prefix: &[u8]) -> Option<&'static [u8]>
    ensures { option_copied result ≡ known_space prefix.now }
{
    if prefix == b"rdf".as_slice() {
        Some(b"http://www.w3.org/1999/02/22-rdf-syntax-ns#".as_slice())
    } else if prefix == b"xml".as_slice() {
        Some(b"http://www.w3.org/XML/1998/namespace".as_slice())
    } else if prefix == b"x".as_slice() {
        Some(b"adobe:ns:meta/".as_slice())
    } else if prefix == b"dc".as_slice() {
        Some(b"http://purl.org/dc/elements/1.1/".as_slice())
    } else if prefix == b"xmp".as_slice() {
        Some(b"http://ns.adobe.com/xap/1.0/".as_slice())
    } else if prefix == b"xmpMM".as_slice() {
        Some(b"http://ns.adobe.com/xap/1.0/mm/".as_slice())
    } else if prefix == b"xmpRights".as_slice() {
        Some(b"http://ns.adobe.com/xap/1.0/rights/".as_slice())
    } else if prefix == b"photoshop".as_slice() {
        Some(b"http://ns.adobe.com/photoshop/1.0/".as_slice())
    } else if prefix == b"tiff".as_slice() {
        Some(b"http://ns.adobe.com/tiff/1.0/".as_slice())
    } else if prefix == b"exif".as_slice() {
        Some(b"http://ns.adobe.com/exif/1.0/".as_slice())
    } else if prefix == b"xmpNote".as_slice() {
        Some(b"http://ns.adobe.com/xmp/note/".as_slice())
    } else if prefix == b"Iptc4xmpCore".as_slice() {
        Some(b"http://iptc.org/std/Iptc4xmpCore/1.0/xmlns/".as_slice())
    } else {
        None
    }
}

/// Whether the prefix is known, of whichever namespace.
pub fn is_known(prefix: &[u8]) -> bool
    ensures { result ≡ is_known prefix.now }
{
    known_space(prefix).is_some()
}
