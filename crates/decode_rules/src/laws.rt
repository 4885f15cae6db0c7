//! Laws of the definitions that decoding goes by. A function here does nothing: what it ensures is
//! the law.

ghost use Rattle.std.specs.Prelude.{◌≡◌, ℕ, List};
ghost use Rattle.decode_rules.specs.Finding.{Finding, Finds};
ghost use Rattle.decode_rules.specs.Terms.{Terms};

use cred_open::laws::{credential_is_one, refusal_is_one, refused_is_not_opened};

/// On the same terms, at the same moment, a text comes to one finding at most.
pub fn finding_is_one()
    ensures { (terms : Terms) (moment : ℕ) (text : List ℕ) (first second : Finding)
        → Finds terms moment text first → Finds terms moment text second → first ≡ second }
{
    refusal_is_one();
    refused_is_not_opened();
    credential_is_one();
}
