//! A law over the definitions: a function that does nothing, with the law as its contract.
ghost use Rattle.xmp_edit.specs.Law.{EditKeeps};

/// Each allowed edit keeps well-formedness.
pub fn edit_keeps()
    ensures { EditKeeps }
{}
