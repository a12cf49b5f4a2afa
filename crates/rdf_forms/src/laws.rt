//! Laws over the definitions: functions that do nothing, each with a law as its contract.
ghost use Rattle.rdf_forms.specs.LeastRules.{LeastRule};
ghost use Rattle.rdf_forms.specs.Levels.{SettledValue, SettledVisits, SettledMeaning};

/// The rule that an element breaks in its role has the least number of those that it breaks.
pub fn least_rule()
    ensures { LeastRule }
{}

/// What elements are given by levels is the same for every number of levels that is at least
/// their height: the value of an element, the elements with a role in it, and the meaning and
/// the first fault of a document.
pub fn settled_levels()
    ensures value { SettledValue }
    ensures visits { SettledVisits }
    ensures meaning { SettledMeaning }
{}
