//! The members of a document with the note apart, which is no property.
ghost use Rattle.std.specs.Prelude.{◌≡◌, [], OnOk};
ghost use Rattle.xmp_tree.specs.Wf.{name_of, note_name};
ghost use Rattle.rdf_forms.specs.Words.{same_name};
ghost use Rattle.rdf_forms.specs.Meaning.{digits_in};
ghost use Rattle.xmp_rdf.specs.Parting.{parts_of, with_placed, note_digits};

use crate::meanings::Places;
use std::alloc::Global;
use xmp_tree::{Member, Members, Shape, is_note};
use xmp_values::{Digits, Memory};

#[derive(Drop)]
pub struct Parted<'p> {
    pub props: Members<'p>,
    /// As many as there are properties.
    pub places: Places,
    /// The note, as often as it stands there.
    pub notes: Members<'p>,
}

/// Whether the member is the note.
fn is_note_member(member: &Member<'_>) -> bool
    ensures { result ≡ same_name (name_of member.now) note_name }
{
    is_note(&member.name)
}

impl<'p> Parted<'p> {
    /// No members, which takes no memory.
    pub fn new(alloc: Global) -> Parted<'p>
        ensures { result ≡ parts_of [] }
    {
        Parted {
            props: Members::new(alloc),
            places: Places::new(alloc),
            notes: Members::new(alloc),
        }
    }

    /// Puts a member with its place at the end.
    pub fn push(&mut self, place: u64, member: Member<'p>) -> Result<(), Memory>
        ensures { OnOk result (self.new ≡ with_placed self.old (place, member.entry)) }
    {
        if is_note_member(&member) {
            self.notes.push(member)?;
        } else {
            self.props.push(member)?;
            self.places.push(place)?;
        }
        Ok(())
    }
}

fn digits_in(text: &[u8]) -> Option<Digits>
    ensures { result ≡ digits_in text.now }
{
    Digits::read(text)
}

/// The digits of the first note, where it is a simple text of 32 hexadecimal digits.
pub fn note_digits(notes: &[Member<'_>]) -> Option<Digits>
    ensures { result ≡ note_digits notes.now }
{
    match &notes.get(0)?.value.shape {
        Shape::Simple(text) => digits_in(text.bytes()),
        _ => None,
    }
}
