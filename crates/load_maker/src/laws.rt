//! Laws of loads. Each function does nothing: what it ensures is the law.

ghost use Rattle.std.specs.Prelude.{◌≡◌, ℕ, List, Some, slice_get};
ghost use Rattle.decode_rules.specs.Terms.{terms_of};
ghost use Rattle.load_maker.specs.Load.{IsLoad, files_of};
ghost use Rattle.load_maker.specs.Presented.{IsReadyUntil, expiry_at};
ghost use Rattle.load_maker.specs.declared.making.Load.{Load};

use cred_seal::laws::sealed_text_is_one;

/// Each credential of a load breaks none of the decode rules 1 to 12 where it is presented by whom
/// and when the load says. Its pair expires 300 seconds after that where its place is even, and 100
/// where it is odd.
pub fn credential_is_ready()
    ensures { (n number : ℕ) (load : Load) (i : ℕ) (text : List ℕ) → IsLoad n number load
        → slice_get load.texts.items i ≡ Some text
        → IsReadyUntil (terms_of load.world load.who (files_of number)) load.moment
        (expiry_at i) text }
{}

/// A number stands for the same credentials each time.
pub fn load_is_one()
    ensures { (n number : ℕ) (first second : Load) → IsLoad n number first
        → IsLoad n number second → first.texts.items ≡ second.texts.items }
{
    sealed_text_is_one();
}
