//! What an element is by the elements around it.

/// What holds a property element, and so which names it may have.
#[derive(Clone, Copy, Debug, PartialEq, Eq)]
pub enum Holder {
    /// A top, whose members are the properties of the tree.
    Top,
    /// A value by its members, and whether `rdf:value` is one of them.
    Value { with_value: bool },
}

/// The part that an element plays, fixed by its ancestors.
#[derive(Clone, Copy, Debug, PartialEq, Eq)]
pub enum Role {
    /// The document's root that isn't `rdf:RDF`.
    Root,
    /// `rdf:RDF`.
    Rdf,
    /// A child of `rdf:RDF`.
    Top,
    /// A child of a top, of a node, or of a property or item with `rdf:parseType="Resource"`.
    Property(Holder),
    /// A child of a container.
    Item,
    /// `rdf:Bag`, `rdf:Seq` or `rdf:Alt` as the one element child of a property or item.
    Container,
    /// Any other element that is the one element child of a property or item.
    Node,
}
