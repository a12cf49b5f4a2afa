ghost use Rattle.std.specs.Prelude.{◌≡◌, ◌↔◌, IsTrue, IfOk};

use crate::{Bytes, Memory};
use std::alloc::Global;
use std::marker::Model;
use std::rc::Rc;

/// A text of the file, or one with owners of its own. Contracts see its bytes.
#[derive(Drop)]
pub struct Text<'p> {
    kept: Kept<'p>,
}

#[derive(Drop)]
enum Kept<'p> {
    Raw(&'p [u8]),
    Own(Rc<Bytes>),
}

impl<'p> Model for Text<'p> {
    ghost use Rattle.std.specs.Prelude.{List, ℕ};

    ghost Value = { List ℕ };

    ghost use Rattle.xmp_values.specs.Kept.{bytes_of};

    ghost view = { λ t. bytes_of t.kept };
}

impl<'p> Text<'p> {
    /// A text that borrows its bytes.
    pub fn raw(bytes: &'p [u8]) -> Text<'p>
        ensures { result ≡ bytes.now }
    {
        Text {
            kept: Kept::Raw(bytes),
        }
    }

    /// A text that owns its bytes, alone until it is cloned.
    pub fn own(alloc: Global, bytes: Bytes) -> Result<Text<'p>, Memory>
        ensures { IfOk result (λ t. t ≡ bytes) }
    {
        let owner = Rc::new(alloc, bytes)?;
        Ok(Text {
            kept: Kept::Own(owner),
        })
    }

    /// The bytes.
    pub fn bytes(&self) -> &[u8]
        ensures { result.now ≡ self.now }
    {
        match &self.kept {
            Kept::Raw(bytes) => bytes,
            Kept::Own(bytes) => bytes.as_ref().as_slice(),
        }
    }

    /// The same text again. No byte is copied: a text of the file is borrowed once more, and the bytes of
    /// another get one more owner.
    pub fn try_clone(&self) -> Result<Text<'p>, Memory>
        ensures { IfOk result (λ t. t ≡ self.now) }
    {
        match &self.kept {
            Kept::Raw(bytes) => Ok(Text::raw(bytes)),
            Kept::Own(bytes) => Ok(Text {
                kept: Kept::Own(bytes.clone()?),
            }),
        }
    }

    /// Whether the texts have the same bytes.
    pub fn same_text(&self, other: &Text<'_>) -> bool
        ensures { IsTrue result ↔ (self.now ≡ other.now) }
    {
        self.bytes() == other.bytes()
    }
}

/// A name by its namespace and its local part.
#[derive(Drop)]
pub struct Name<'p> {
    pub space: Text<'p>,
    pub local: Text<'p>,
}

impl<'p> Name<'p> {
    /// The same name again, its texts as by `Text::try_clone`.
    pub fn try_clone(&self) -> Result<Name<'p>, Memory>
        ensures { IfOk result (λ n. n ≡ self.now) }
    {
        let space = self.space.try_clone()?;
        let local = self.local.try_clone()?;
        Ok(Name { space, local })
    }

    /// Whether the names have the same namespace and the same local part.
    pub fn same_name(&self, other: &Name<'_>) -> bool
        ensures { IsTrue result ↔ (self.now ≡ other.now) }
    {
        // The local part first: it alone tells most names apart.
        self.local.same_text(&other.local) && self.space.same_text(&other.space)
    }
}
