//! Scripts, and the edits of property trees that their lines tell.
//!
//! A text is read as a script whole, before its first edit is made, and the first bad line is told with
//! the least rule that it breaks. It promises that the edits give exactly the tree of their definitions,
//! or the first line that is refused and no tree, and that each edit that a script may have keeps a tree
//! well formed. It stands on the trees of `xmp_tree` (ISO 16684-1, clause 6) and the paths of `xmp_paths`.
#![tactic(auto)]

mod action;
mod changing;
mod drafts;
mod edit;
mod fields;
mod given;
mod held;
mod held_members;
mod judging;
mod languages;
mod laws;
mod line;
mod places;
mod properties;
mod queues;
mod reading;
mod script;
mod slots;
mod words;

pub use action::Action;
pub use edit::Edit;
pub use laws::edit_keeps;
pub use script::{Script, apply, one_set};
pub use xmp_paths::{Path, PathStop, Step, find};
pub use xmp_values::{PlaceStop as EditStop, PlaceStop as ScriptStop};
