//! Tags as they are spelled, before any prefix is looked up.

use xmp_values::{Sequence, Text};

/// A name with an optional prefix (QName; Namespaces in XML 1.0, production 7).
#[derive(Drop)]
pub struct QName<'p> {
    pub prefix: Option<Text<'p>>,
    pub local: Text<'p>,
}

/// An attribute of a tag, a declaration of a namespace included. Its value is read: references
/// stand for their characters, and a literal blank for a space.
#[derive(Drop)]
pub struct RawAttribute<'p> {
    pub name: QName<'p>,
    pub value: Text<'p>,
}

/// A start tag, or an empty one (productions 40 and 44).
#[derive(Drop)]
pub struct Tag<'p> {
    pub name: QName<'p>,
    pub attributes: Sequence<RawAttribute<'p>>,
    pub empty: bool,
}
