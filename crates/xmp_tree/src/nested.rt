ghost use Rattle.xmp_tree.specs.declared.nested.Member.{out-Member};

use xmp_values::{Name, Named, Sequence, Text};

/// Properties, fields or qualifiers, in their order.
pub type Members<'p> = Sequence<Member<'p>>;

/// The items of an array, in their order.
pub type Items<'p> = Sequence<Value<'p>>;

/// Which array it is (ISO 16684-1, 6.3.4): unordered, ordered, or of alternatives.
#[derive(Clone, Copy, Debug, PartialEq, Eq)]
pub enum Kind {
    Bag,
    Seq,
    Alt,
}

/// A value without its qualifiers (ISO 16684-1, 6.3): a text, a URI, fields, or items.
#[cycle(tree)]
#[derive(Drop)]
pub enum Shape<'p> {
    Simple(Text<'p>),
    Uri(Text<'p>),
    Struct(Members<'p>),
    Array(Kind, Items<'p>),
}

/// A value with its qualifiers (ISO 16684-1, 6.4).
#[cycle(tree)]
#[derive(Drop)]
pub struct Value<'p> {
    pub shape: Shape<'p>,
    pub quals: Members<'p>,
}

/// A property, a field or a qualifier: a name and its value.
#[cycle(tree)]
#[derive(Drop)]
pub struct Member<'p> {
    pub name: Name<'p>,
    pub value: Value<'p>,
}

impl Named for Member<'_> {
    ghost name = { λ m. (out-Member m).name };

    fn name(&self) -> &Name<'_> {
        &self.name
    }
}
