//! Trees, paths, scripts and texts, with values from the standards and from this project's rules.
//!
//! The tests of the four crates that hold, edit and write a tree stand here, over their public
//! calls: a crate with tests of its own is proved a second time with them. It stands on
//! `xmp_write`, `xmp_edit`, `xmp_paths` and `xmp_tree`.
//! ISO 16684-1, clauses 6 and 7.
#![tactic(auto)]

#[cfg(test)]
mod edits;
#[cfg(test)]
mod made_trees;
#[cfg(test)]
mod paths;
#[cfg(test)]
mod texts;
#[cfg(test)]
mod trees;
