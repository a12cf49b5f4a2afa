//! What a reader takes from a text at once.

use crate::tags::{QName, Tag};
use xmp_values::Text;

/// Where in a text a piece stands.
#[derive(Clone, Copy, Debug, PartialEq, Eq)]
pub enum Mode {
    /// At the text's start, where an XML declaration may stand.
    Start,
    /// Outside the root.
    Outside,
    /// Inside an element.
    Inside,
}

/// One piece of a text, or a run of characters, each of which is a piece.
#[derive(Drop)]
pub enum Token<'p> {
    /// An XML declaration, and the encoding that it names.
    Declaration(Option<Text<'p>>),
    Instruction,
    Comment,
    /// A CDATA section, and the text that it stands for.
    Cdata(Text<'p>),
    Start(Tag<'p>),
    End(QName<'p>),
    /// A reference, and the character that it stands for.
    Reference(char),
    /// CR LF or CR, which stands for LF.
    LineEnd,
    /// Characters that stand for themselves.
    Run(Text<'p>),
}
