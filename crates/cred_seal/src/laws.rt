//! A law of sealed texts. The function does nothing: what it ensures is the law.

ghost use Rattle.std.specs.Prelude.{◌≡◌, ℕ, List};
ghost use Rattle.munge_types.specs.declared.identity.Identity.{Identity};
ghost use Rattle.munge_types.specs.declared.settings.Settings.{Settings};
ghost use Rattle.cred_seal.specs.Asked.{Asked};
ghost use Rattle.cred_seal.specs.SealedText.{IsSealed};

/// What a caller asks for at a moment is sealed to one text at most, with one salt and one vector.
pub fn sealed_text_is_one()
    ensures { (key : List ℕ) (settings : Settings) (asked : Asked) (who : Identity) (moment : ℕ)
        (salt vector first second : List ℕ)
        → IsSealed key settings asked who moment salt vector first
        → IsSealed key settings asked who moment salt vector second → first ≡ second }
{}
