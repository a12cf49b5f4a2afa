//! The least rule that an element breaks in its role. ISO 16684-1, 7.3 to 7.9.
ghost use Rattle.std.specs.Prelude.{◌≡◌, List, [], IfOk};
ghost use Rattle.xmp_values.specs.declared.text.Name.{Name};
ghost use Rattle.rdf_forms.specs.Entering.{Holds};
ghost use Rattle.rdf_forms.specs.Rules.{broken_in};
ghost use Rattle.rdf_forms.specs.Broken.{TopGives};

use crate::form_rules::form_rule;
use crate::formed::Formed;
use crate::member_rules::{enter_top, member_rule, twice_value};
use crate::name_rules::name_rule;
use crate::roles::Role;
use std::alloc::Global;
use xml_grammar::Element;
use xmp_values::{Memory, NameSet, Rule};

/// The least rule that an element breaks in its role, a top after no others.
#[tactic(auto, unfolding(crate::specs::Rules::broken_in))]
pub fn broken(
    alloc: Global,
    role: Role,
    depth: u64,
    formed: &Formed<'_, '_>,
) -> Result<Option<Rule>, Memory>
    ensures { IfOk result (λ rule. rule ≡ broken_in role depth formed.now.element.now [] []) }
{
    if let Some(rule) = name_rule(role, formed.element, b"".as_slice()) {
        return Ok(Some(rule));
    }
    if let Some(rule) = form_rule(role, formed) {
        return Ok(Some(rule));
    }
    member_rule(alloc, role, depth, formed)
}

/// The least rule that a top breaks after others, else the set of the names of their members gets
/// those of the top's own. `first` is the first about of the others.
#[tactic(auto, unfolding(crate::specs::Rules::broken_in))]
pub fn broken_top<'e>(
    top: &'e Element<'_>,
    first: &[u8],
    seen: &mut NameSet<'e>,
) -> Result<Option<Rule>, Memory>
    ensures { (names : List Name) → Holds seen.old names → IfOk result (TopGives top.now first.now names seen.new) }
{
    if let Some(rule) = name_rule(Role::Top, top, first) {
        return Ok(Some(rule));
    }
    let formed = Formed::of(top);
    if let Some(rule) = form_rule(Role::Top, &formed) {
        return Ok(Some(rule));
    }
    if twice_value(Role::Top, &formed) {
        return Ok(Some(Rule::TwiceValue));
    }
    if enter_top(top, seen)? {
        Ok(None)
    } else {
        Ok(Some(Rule::Twice))
    }
}
