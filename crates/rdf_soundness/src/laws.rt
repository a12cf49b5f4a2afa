//! Laws over the definitions: functions that do nothing, each with a law as its contract.
ghost use Rattle.rdf_soundness.specs.Formed.{FormedProperties};
ghost use Rattle.rdf_soundness.specs.Tree.{FormedTree};

/// A property or item of a sound document has a well-formed value that fits at its depth,
/// where neither it nor anything in it breaks a rule.
pub fn formed_properties()
    ensures { FormedProperties }
{}

/// A sound document that breaks no rule has a well-formed tree.
pub fn formed_tree()
    ensures { FormedTree }
{}
