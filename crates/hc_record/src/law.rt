//! Laws of records: each is the contract of a function that does nothing.
ghost use Rattle.std.specs.Prelude.{◌≡◌, ◌++◌, [], ℕ, List};
ghost use Rattle.hc_record.specs.declared.version.Version.{Version};
ghost use Rattle.hc_record.specs.Head.{Head, IsHead};
ghost use Rattle.hc_record.specs.Plain.{plain};
ghost use Rattle.hc_record.specs.Record.{spelling};

use crate::head::StoredHead;

/// No record is a proper prefix of another, of whichever versions, and no text is the record of two
/// heads or of two versions.
pub fn records_spell_heads_apart(_head: &StoredHead)
    ensures apart { (v w : Version) (other : Head) → IsHead other
        → spelling v (plain _head.now) ≡ spelling w other → (plain _head.now ≡ other) × (v ≡ w) }
    ensures prefix { (v w : Version) (other : Head) (rest : List ℕ) → IsHead other
        → spelling v (plain _head.now) ++ rest ≡ spelling w other → rest ≡ [] }
{}
