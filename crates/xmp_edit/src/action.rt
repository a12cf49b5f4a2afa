//! The kinds of edit.
ghost use Rattle.std.specs.Prelude.{◌≡◌};
ghost use Rattle.xmp_edit.specs.Actions.{makes};

use xmp_tree::Kind;
use xmp_values::Text;

/// What is to be done at a place.
#[derive(Drop)]
pub enum Action {
    /// The value becomes this text, and keeps its qualifiers.
    SetText(Text<'static>),
    /// The value becomes this URI, and keeps its qualifiers.
    SetUri(Text<'static>),
    /// The value is taken out.
    Delete,
    /// An empty array is made at a missing place; one of the kind stays.
    MakeArray(Kind),
    /// An empty structure is made at a missing place; a structure stays.
    MakeStruct,
    /// A text is added to the array's end.
    Append(Text<'static>),
    /// A text is put before the item at a place, from 0, or at the end.
    Insert(usize, Text<'static>),
    /// In an array of alternatives, the item of a language, the first text here, becomes the second.
    SetLang(Text<'static>, Text<'static>),
}

/// Whether a missing place is made.
pub fn makes(action: &Action) -> bool
    ensures { result ≡ makes action.now }
{
    match action {
        Action::Delete | Action::Append(_) | Action::Insert(_, _) => false,
        Action::SetText(_)
        | Action::SetUri(_)
        | Action::MakeArray(_)
        | Action::MakeStruct
        | Action::SetLang(_, _) => true,
    }
}
