//! Laws of the definitions. The functions do nothing: each clause holds of every file.
ghost use Rattle.std.specs.Prelude.{◌≡◌, ℕ, List, ◌∷◌, ◌++◌};
ghost use Rattle.std.specs.List.{AllByRecursion};
ghost use Rattle.jpeg_regions.specs.Jpeg.{Jpeg, FirstFault, Region, Segment, IsInner, Cuts};
ghost use Rattle.jpeg_regions.specs.Exchanged.{start_of, exchanged_file, exchanged_list, PacketExchanged};

use xmp_values::Rule;

/// A file has at most one list, at most one first fault, and not both.
pub fn one_answer()
    ensures list { (file : List ℕ) (a b : List Region) → Jpeg file a → Jpeg file b → a ≡ b }
    ensures fault { (file : List ℕ) (a b : Rule) (m n : ℕ) → FirstFault file a m → FirstFault file b n → (a ≡ b) × (m ≡ n) }
    ensures either { (file : List ℕ) (list : List Region) (rule : Rule) (place : ℕ) → Jpeg file list → FirstFault file rule place → ⊥ }
{}

/// Regions exchanged for segments: put in where none goes, taken out where no segment comes. What
/// the file then has is the old list so changed, with the later regions moved.
pub fn exchange()
    ensures { (file : List ℕ) (before gone after : List Region) (next : Region) (segments : List Segment)
        → Cuts file (before ++ (gone ++ next ∷ after)) → AllByRecursion IsInner segments
        → Cuts (exchanged_file file (start_of (gone ++ next ∷ after)) next.range.start segments)
        (exchanged_list before (start_of (gone ++ next ∷ after)) next.range.start segments (next ∷ after)) }
{}

/// A packet that is exchanged for one of its length leaves the list of regions as it is.
pub fn packet_exchanged()
    ensures { PacketExchanged }
{}
