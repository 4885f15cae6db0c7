//! Laws over the definitions of an option file, each a function that does nothing and ensures it.

ghost use Rattle.std.specs.Prelude.{◌≡◌, ℕ, List, None, Some, true};
ghost use Rattle.toml.specs.Data.{Members};
ghost use Rattle.option_file.specs.Accepted.{IsSound};
ghost use Rattle.option_file.specs.Configuration.{configuration_of};
ghost use Rattle.option_file.specs.FirstUnknown.{has_key, IsFirstUnknown};
ghost use Rattle.option_file.specs.KnownKeys.{is_known, unknown_refusal};
ghost use Rattle.option_file.specs.Refusals.{first_refusal};
ghost use Rattle.option_file.specs.declared.known_keys.Place.{Place};
ghost use Rattle.option_file.specs.declared.refused.OptionRefused.{OptionRefused};
ghost use Rattle.option_file.specs.declared.refused.OptionRefused.TheVariants.{Unknown};

/// What a file says that is not refused is within the limits: its times and numbers, the UIDs and
/// GIDs of its callers, and no two of its sockets have one path.
pub fn accepted_file_is_sound()
    ensures { (bytes : List ℕ) → first_refusal bytes ≡ None → IsSound (configuration_of bytes) }
{}

/// A key that is told as unknown is one, it is in the table, and no other unknown key there comes
/// before it in byte order.
pub fn unknown_key_is_the_first()
    ensures { (at : Place) (members : Members) (name : List ℕ)
        → unknown_refusal at members ≡ Some (Unknown name) → IsFirstUnknown at members name }
{}

/// Where no key is told as unknown, each key of the table is known.
pub fn no_key_is_unknown()
    ensures { (at : Place) (members : Members) (name : List ℕ)
        → unknown_refusal at members ≡ None → has_key name members ≡ true
        → is_known at name ≡ true }
{}
