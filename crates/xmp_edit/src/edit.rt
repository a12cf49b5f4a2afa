use crate::action::Action;
use xmp_paths::Path;

/// An edit: what is to be done where, and the number of its line in the script, from 1.
#[derive(Drop)]
pub struct Edit {
    pub line: u64,
    pub path: Path,
    pub action: Action,
}
