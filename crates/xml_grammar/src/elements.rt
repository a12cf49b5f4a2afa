//! Elements with their names expanded.
ghost use Rattle.std.specs.Prelude.{◌≡◌};
ghost use Rattle.xml_grammar.specs.declared.elements.Element.{out-Element};

use xmp_values::{Name, Sequence, Text};

/// The attributes of an element in their order, without declarations of namespaces.
pub type Attributes<'p> = Sequence<Attribute<'p>>;

/// What stands between an element's tags. Between two elements stands at most one text.
pub type Children<'p> = Sequence<Child<'p>>;

#[derive(Drop)]
pub struct Attribute<'p> {
    pub name: Name<'p>,
    pub value: Text<'p>,
}

/// An element. Its place is that of its `<` in the text.
#[cycle(elements)]
#[derive(Drop)]
pub struct Element<'p> {
    pub at: u64,
    pub name: Name<'p>,
    pub attributes: Attributes<'p>,
    pub children: Children<'p>,
}

#[cycle(elements)]
#[derive(Drop)]
pub enum Child<'p> {
    Element(Element<'p>),
    Text(Text<'p>),
}

impl<'p> Element<'p> {
    /// The place of its `<`.
    pub fn at(&self) -> u64
        ensures { result ≡ (out-Element self.now).at }
    {
        self.at
    }
}
