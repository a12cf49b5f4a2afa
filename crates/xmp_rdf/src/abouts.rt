//! The about of a document: the first one of its tops that isn't empty.
ghost use Rattle.std.specs.Prelude.{◌≡◌, [], IfOk, if◌then◌else◌};
ghost use Rattle.std.specs.Str.{bytes_eq};
ghost use Rattle.rdf_forms.specs.FormViews.{about_in};
ghost use Rattle.rdf_forms.specs.NameRules.{about_of};

use rdf_forms::{about_bytes, about_text};
use xml_grammar::Element;
use xmp_values::{Memory, Text};

/// The first about that isn't empty, with one top more.
pub fn first_about<'e, 'p>(
    first: Option<&'e Text<'p>>,
    top: &'e Element<'p>,
) -> Option<&'e Text<'p>>
    ensures { about_in result ≡ (if bytes_eq (about_in first.entry) [] then about_of top.now else about_in first.entry) }
{
    if about_bytes(first).is_empty() {
        about_text(top)
    } else {
        first
    }
}

/// An about again, which is empty where there is none.
pub fn about_again<'p>(about: Option<&Text<'p>>) -> Result<Text<'p>, Memory>
    ensures { IfOk result (λ t. t ≡ about_in about.entry) }
{
    match about {
        Some(text) => text.try_clone(),
        None => Ok(Text::raw(b"".as_slice())),
    }
}
