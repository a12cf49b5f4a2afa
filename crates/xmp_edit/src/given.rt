use crate::edit::Edit;
use xmp_values::Hint;

/// What a line gives.
#[derive(Drop)]
pub enum Given {
    Nothing,
    /// A prefix bound to a namespace.
    Bound(Hint),
    /// An edit.
    Made(Edit),
}
