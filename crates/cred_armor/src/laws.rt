//! Laws of the armour. Each function does nothing: what it ensures is the law.

ghost use Rattle.std.specs.Prelude.{◌≡◌, ℕ, ◌+◌, ◌*◌, List, ◌++◌, length};
ghost use Rattle.std.specs.Int.{div_ceil};
ghost use Rattle.base64.specs.GeneralPurpose.{IsBytes};
ghost use Rattle.cred_armor.specs.CredentialText.{AreSpaces, Spells, armor_of};

/// A text spells one body at most.
pub fn text_spells_one_body()
    ensures { (text first second : List ℕ) → Spells text first → Spells text second
        → first ≡ second }
{}

/// The armour of a body spells it, with any spaces round it.
pub fn armor_spells_its_body()
    ensures { (before body after : List ℕ) → AreSpaces before → IsBytes body → AreSpaces after
        → Spells (before ++ (armor_of body ++ after)) body }
{}

/// How many bytes an armour has: seven of the marks, and four for each three bytes of the body or
/// fewer at its end.
pub fn armor_size()
    ensures { (body : List ℕ) → length (armor_of body) ≡ 7 + 4 * div_ceil (length body) 3 }
{}
