//! What holds the members of an element, by its form.
ghost use Rattle.std.specs.Prelude.{◌≡◌};
ghost use Rattle.rdf_forms.specs.Visits.{has_value_member, is_typed, members_holder, node_holder};

use crate::parts::{has_rdf_attribute, has_rdf_element};
use crate::roles::Holder;
use crate::words::is_rdf;
use xml_grammar::Element;

/// Whether `rdf:value` is a member of this node.
#[tactic(auto, unfolding(crate::specs::Visits::has_value_member))]
pub fn has_value_member(node: &Element<'_>) -> bool
    ensures { result ≡ has_value_member node.now }
{
    has_rdf_attribute(b"value".as_slice(), node) || has_rdf_element(b"value".as_slice(), node)
}

/// Whether the node has a type of its own, as it isn't `rdf:Description`.
#[tactic(auto, unfolding(crate::specs::Visits::is_typed))]
pub fn is_typed(node: &Element<'_>) -> bool
    ensures { result ≡ is_typed node.now }
{
    !is_rdf(b"Description".as_slice(), &node.name)
}

/// What holds the members of a property or item with `rdf:parseType="Resource"`.
#[tactic(auto, unfolding(crate::specs::Visits::members_holder))]
pub fn members_holder(element: &Element<'_>) -> Holder
    ensures { result ≡ members_holder element.now }
{
    Holder::Value {
        with_value: has_rdf_element(b"value".as_slice(), element),
    }
}

/// What holds the members of a node.
#[tactic(auto, unfolding(crate::specs::Visits::node_holder))]
pub fn node_holder(node: &Element<'_>) -> Holder
    ensures { result ≡ node_holder node.now }
{
    Holder::Value {
        with_value: has_value_member(node),
    }
}
