//! Paths into property trees.
//!
//! A path names a place, with prefixes that are known, that a script binds or that a file hints at.
//! It promises that a text gives exactly the path of its grammar, or the least rule that it breaks
//! over its whole length, and that `find` gives the value there exactly where one is. It stands on the
//! trees of `xmp_tree` (ISO 16684-1, clause 6) and on `known_prefixes`.
#![tactic(auto)]

mod finding;
mod namespaces;
mod numbers;
mod path;
mod resolving;
mod spelling;
mod step;

pub use finding::{child, find, items_of};
pub use namespaces::Namespaces;
pub use numbers::{is_lang_tag, place_of_number};
pub use path::Path;
pub use spelling::{Prefixed, SpelledStep, Spelling, is_prefix, prefixed_name, spelled};
pub use step::Step;
pub use xmp_values::RuleStop as PathStop;
