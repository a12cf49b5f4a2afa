//! Worked examples: whole runs over devices in memory, with their answers.
//!
//! The files stand here as values, and the tests compare a run's status, text and line
//! with what the public standard and the manual of `xmp` give for them; also files as they are
//! loaded. It stands on `xmp_cli`, `xmp_files` and `xmp_base`.
#![tactic(auto)]

#[cfg(test)]
mod beginnings;
#[cfg(test)]
mod commands;
#[cfg(test)]
mod devices;
#[cfg(test)]
mod edited_photographs;
#[cfg(test)]
mod editing;
#[cfg(test)]
mod extended;
#[cfg(test)]
mod failing;
mod files;
#[cfg(test)]
mod images;
#[cfg(test)]
mod kinds;
#[cfg(test)]
mod loading;
#[cfg(test)]
mod made_trees;
#[cfg(test)]
mod moved_images;
#[cfg(test)]
mod patching;
#[cfg(test)]
mod photographs;
#[cfg(test)]
mod relocated;
#[cfg(test)]
mod round_trips;
#[cfg(test)]
mod runs;
#[cfg(test)]
mod sidecars;

pub use files::{
    BLANKS, EMPTY, NO_DESCRIPTION, PADDED, PHOTO, QUALIFIED, QUALIFIED_LINES, REFERENCED,
    REFERENCED_LINES, TWICE, TYPED, TYPED_LINES, USUAL, USUAL_LINES,
};
