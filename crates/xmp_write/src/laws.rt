//! Laws of the definitions. The functions do nothing: each clause holds of every tree and every
//! list of hints.
ghost use Rattle.std.specs.Prelude.{◌≡◌, ℕ, ◌+◌, ◌^◌, ◌<◌, ◌≤◌, List, length, true, false};
ghost use Rattle.xmp_values.specs.declared.hints.Hint.{Hint};
ghost use Rattle.xmp_values.specs.Hints.{AreValid};
ghost use Rattle.xmp_tree.specs.Parts.{Parts};
ghost use Rattle.xmp_tree.specs.Wf.{Wf};
ghost use Rattle.xmp_write.specs.declared.forms.Form.{Form};
ghost use Rattle.xmp_write.specs.Prefixes.{is_free, numbered, free_number};
ghost use Rattle.xmp_write.specs.PrefixLaws.{AreFew, PrefixLaw};

/// The number of a numbered prefix is the least from 1 whose prefix is free. Lists in memory are
/// as short as `free` asks.
pub fn the_least_free_number()
    ensures free { (hints given : List Hint) → length hints + length given + 1 < 2 ^ 64 → is_free hints given (numbered (free_number hints given)) ≡ true }
    ensures least { (hints given : List Hint) (n : ℕ) → 1 ≤ n → n < free_number hints given → is_free hints given (numbered n) ≡ false }
{}

/// The prefixes of a text may be declared and are told apart, and each namespace that is written
/// and isn't fixed has exactly one.
pub fn prefixes_are_told_apart()
    ensures { (t : Parts) (hints : List Hint) (form : Form) → Wf t → AreValid hints → AreFew t hints form → PrefixLaw t hints form }
{}
