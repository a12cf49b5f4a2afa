//! Laws of the definitions. The functions do nothing: each clause holds of all sources and trees.
ghost use Rattle.std.specs.Prelude.{◌≡◌, ◌≢◌, ◌↔◌, ◌⊎◌, [], Bool, false, true, List, Option};
ghost use Rattle.xmp_tree.specs.declared.nested.Member.{Member};
ghost use Rattle.mwg_rules.specs.Sources.{Texts, choices_for};
ghost use Rattle.mwg_rules.specs.Reconciled.{reconciled};
ghost use Rattle.mwg_rules.specs.Stale.{is_changed, stale_lines};
ghost use Rattle.xmp_tree.specs.declared.nested.Value.{Value};
ghost use Rattle.mwg_rules.specs.declared.properties.Form.{Form};
ghost use Rattle.mwg_rules.specs.Forms.{with_texts};

/// What was reconciled prefers itself again, with the same digests, and where the stored one was
/// renewed in between, so that it differs no more: it isn't changed again, and no line is stale.
pub fn prefers_itself()
    ensures same { (exif iptc : List (Option Texts)) (differed differs : Bool) (props : List Member) → (differs ≡ differed) ⊎ (differs ≡ false)
        → let made = reconciled (choices_for exif differed iptc props) props in reconciled (choices_for exif differs iptc made) made ≡ made }
    ensures no_line { (exif iptc : List (Option Texts)) (differed differs : Bool) (props : List Member) → (differs ≡ differed) ⊎ (differs ≡ false)
        → let made = reconciled (choices_for exif differed iptc props) props in stale_lines (choices_for exif differs iptc made) made ≡ [] }
{}

/// A line says that a property would be changed exactly where its value would become another one.
pub fn stale_is_changed()
    ensures { (form : Form) (texts : Texts) (v : Value) → (is_changed form texts (Some v) ≡ true) ↔ (with_texts form texts (Some v) ≢ v) }
{}
