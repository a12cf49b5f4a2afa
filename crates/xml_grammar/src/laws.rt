//! Laws over the definitions: functions that do nothing, each with a law as its contract.
ghost use Rattle.std.specs.Prelude.{◌≡◌, ◌≤◌, ◌⊎◌, ◌++◌, ◌∷◌, [], List, Option, None, Some, IsTrue, false, ℕ, codes, replicate};
ghost use Rattle.std.specs.List.{concat};
ghost use Rattle.xmp_values.specs.declared.hints.Hint.{Hint};
ghost use Rattle.xmp_values.specs.Hints.{AreValid};
ghost use Rattle.xmp_values.specs.Rules.{number_of};
ghost use Rattle.xmp_values.specs.declared.rules.Rule.{Rule};
ghost use Rattle.xmp_values.specs.declared.rules.Rule.TheVariants.{Utf16, BadChar, BadReference, OutsideRoot, Mismatch, TwiceAttribute, TooDeep, Unfinished};
ghost use Rattle.xml_grammar.specs.declared.elements.Element.{Element};
ghost use Rattle.xml_grammar.specs.declared.tags.QName.{QName};
ghost use Rattle.xml_grammar.specs.declared.tags.Tag.{Tag};
ghost use Rattle.xml_grammar.specs.declared.tokens.Mode.{Mode};
ghost use Rattle.xml_grammar.specs.Spelling.{BeginsWith};
ghost use Rattle.xml_grammar.specs.Pieces.{Piece, Declaration, Instruction, Comment, Cdata, Start, End, Reference, Stands};
ghost use Rattle.xml_grammar.specs.Nesting.{Nest, breaks, broken};
ghost use Rattle.xml_grammar.specs.Documents.{IsDocument, IsFault};
ghost use Rattle.xml_grammar.specs.Heights.{height};
ghost use Rattle.xml_grammar.specs.Sound.{IsSound};

/// At one place of a text at most one piece is spelled.
pub fn one_piece()
    ensures { (mode : Mode) (p q : Piece) (a b c d : List ℕ) → Stands mode p a c → Stands mode q b d → a ++ c ≡ b ++ d → (p ≡ q) × (a ≡ b) × (c ≡ d) }
{}

/// How a text begins tells the kind of the piece that may stand at its front. So where a text
/// begins `<!--` "no piece" means "no comment", and so on for each of the other beginnings.
pub fn beginnings()
    ensures comment { (mode : Mode) (p : Piece) (front back : List ℕ) → Stands mode p front back → BeginsWith (codes "<!--") (front ++ back) → p ≡ Comment }
    ensures cdata { (mode : Mode) (p : Piece) (front back : List ℕ) → Stands mode p front back → BeginsWith (codes "<![CDATA[") (front ++ back) → (text : List ℕ) × (p ≡ Cdata text) }
    ensures instruction { (mode : Mode) (p : Piece) (front back : List ℕ) → Stands mode p front back → BeginsWith (codes "<?") (front ++ back) → (p ≡ Instruction) ⊎ ((encoding : Option (List ℕ)) × (p ≡ Declaration encoding)) }
    ensures reference { (mode : Mode) (p : Piece) (front back : List ℕ) → Stands mode p front back → BeginsWith (codes "&") (front ++ back) → (c : ℕ) × (p ≡ Reference c) }
    ensures doctype { (mode : Mode) (p : Piece) (front back : List ℕ) → Stands mode p front back → BeginsWith (codes "<!DOCTYPE") (front ++ back) → ⊥ }
    ensures tag { (mode : Mode) (p : Piece) (front back : List ℕ) → Stands mode p front back → BeginsWith (codes "<") (front ++ back) → (BeginsWith (codes "<!--") (front ++ back) → ⊥) → (BeginsWith (codes "<?") (front ++ back) → ⊥) → (BeginsWith (codes "<![CDATA[") (front ++ back) → ⊥) → ((tag : Tag) × (p ≡ Start tag)) ⊎ ((name : QName) × (p ≡ End name)) }
{}

/// A text has at most one document.
pub fn one_document()
    ensures { (text : List ℕ) (e f : Element) (g h : List Hint) → IsDocument text e g → IsDocument text f h → (e ≡ f) × (g ≡ h) }
{}

/// A text has at most one first fault, and one that has a document has none.
pub fn one_fault()
    ensures one { (text : List ℕ) (q r : Rule) (m n : ℕ) → IsFault text q m → IsFault text r n → (q ≡ r) × (m ≡ n) }
    ensures none { (text : List ℕ) (e : Element) (h : List Hint) (r : Rule) (place : ℕ) → IsDocument text e h → IsFault text r place → ⊥ }
{}

/// Of the rules that a whole piece breaks, `broken` gives the one of the least number.
pub fn least_rule()
    ensures least { (s : Nest) (p : Piece) (r : Rule) → broken s p ≡ Some r → IsTrue (breaks s p r) × ((q : Rule) → IsTrue (breaks s p q) → number_of r ≤ number_of q) }
    ensures none { (s : Nest) (p : Piece) (q : Rule) → broken s p ≡ None → breaks s p q ≡ false }
{}

/// In a document the attributes of one element differ in name, no name is in the namespace of
/// `xmlns`, local parts are names without colon, and all text is made of Chars. Its hints are valid.
pub fn sound_document()
    ensures { (text : List ℕ) (root : Element) (hints : List Hint) → IsDocument text root hints → IsSound root × AreValid hints }
{}

/// A document is at most 100 elements high.
pub fn document_height()
    ensures { (text : List ℕ) (root : Element) (hints : List Hint) → IsDocument text root hints → height root ≤ 100 }
{}

/// A text whose second byte is `?` has a document only where its first byte is `<`.
pub fn document_gate()
    ensures { (b : ℕ) (rest : List ℕ) (e : Element) (h : List Hint) → IsDocument (b ∷ 0x3F ∷ rest) e h → b ≡ 0x3C }
{}

/// What the definitions say of some small texts.
pub fn worked_texts()
    ensures document { (e : Element) × (e.at ≡ 0) × (e.name.local ≡ codes "a") × (e.children ≡ []) × IsDocument (codes "<a/>") e [] }
    ensures bracket { IsFault (codes "<a>]]></a>") BadChar 3 }
    ensures twice { IsFault (codes "<a b=\"1\" b=\"2\"/>") TwiceAttribute 0 }
    ensures entity { IsFault (codes "<a>&copy;</a>") BadReference 3 }
    ensures open_still { IsFault (codes "<a>") Unfinished 3 }
    ensures second_root { IsFault (codes "<a/><b/>") OutsideRoot 4 }
    ensures no_char { IsFault (0xEF ∷ 0xBB ∷ 0xBF ∷ codes "<a>&#0;</a>") BadReference 6 }
    ensures other_end { IsFault (codes "<a><b></a>") Mismatch 6 }
    ensures utf16 { IsFault (0xFF ∷ 0xFE ∷ 0x3C ∷ 0 ∷ []) Utf16 0 }
    ensures deep { IsFault (concat (replicate 101 (codes "<a>"))) TooDeep 300 }
{}
