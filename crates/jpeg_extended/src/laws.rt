//! Laws of the definitions. The functions do nothing: each clause holds of all portions.
ghost use Rattle.std.specs.Prelude.{◌≡◌, ◌<◌, ◌≤◌, ◌-◌, ℕ, List, length, map, take, flat_map, IsPermutation};
ghost use Rattle.xmp_values.specs.Digits.{AreCapitals};
ghost use Rattle.jpeg_extended.specs.Tiling.{Extent, IsGap, IsTooLong, Tiled, limit};
ghost use Rattle.jpeg_extended.specs.Portions.{Portion, extent, head_of, payload_text, portion_of};
ghost use Rattle.jpeg_extended.specs.Heads.{extents_in};
ghost use Rattle.xmp_base.specs.declared.file_span.FileSpan.{FileSpan};
ghost use Rattle.jpeg_extended.specs.Joined.{Joined};
ghost use Rattle.jpeg_extended.specs.Written.{portions_of};

/// Portions join to at most one text, have at most one first fault, and not both.
pub fn one_answer()
    ensures text { (ps : List Portion) (a b : List ℕ) → Joined ps a → Joined ps b → a ≡ b }
    ensures full { (es : List Extent) (m n : ℕ) → Tiled es m → Tiled es n → m ≡ n }
    ensures over { (es : List Extent) (m n : ℕ) → IsTooLong es m → IsTooLong es n → m ≡ n }
    ensures place { (es : List Extent) (m n : ℕ) → IsGap es m → IsGap es n → m ≡ n }
    ensures not_over { (es : List Extent) (m n : ℕ) → Tiled es m → IsTooLong es n → ⊥ }
    ensures not_gap { (es : List Extent) (m n : ℕ) → Tiled es m → IsGap es n → ⊥ }
    ensures over_or_gap { (es : List Extent) (m n : ℕ) → IsTooLong es m → IsGap es n → ⊥ }
{}

/// The portions of a text of 1 to 16,777,216 bytes, read from their payloads in whatever order, join to it.
pub fn joins_again()
    ensures { (text name : List ℕ) → AreCapitals name → 0 < length text → length text ≤ limit
        → (ps : List Portion) → IsPermutation (portions_of text) ps → Joined (flat_map (portion_of name) (map (payload_text name) ps)) text }
{}

/// The first 75 bytes of a payload, with its place, say what the whole payload says of its portion.
pub fn heads_tell()
    ensures { (name payload : List ℕ) (place : FileSpan) → place.end - place.start ≡ length payload
        → map extent (portion_of name payload) ≡ extents_in (head_of name (take 75 payload) place) }
{}
