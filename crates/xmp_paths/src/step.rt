use xmp_values::{Name, Text};

/// A step from a value to one that it holds. It owns its texts.
#[derive(Drop)]
pub enum Step {
    /// The field of a name.
    Field(Name<'static>),
    /// The qualifier of a name.
    Qualifier(Name<'static>),
    /// The item at a place, from 0.
    Item(usize),
    /// The first item whose `xml:lang` is this tag, ASCII case aside.
    Tag(Text<'static>),
}
