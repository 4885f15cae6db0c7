//! Laws of the definitions that opening goes by. Each function does nothing: what it ensures is the
//! law.

ghost use Rattle.std.specs.Prelude.{◌≡◌, ℕ, List, length};
ghost use Rattle.munge_types.specs.declared.algorithms.Cipher.{Cipher};
ghost use Rattle.munge_types.specs.declared.algorithms.MacKind.{MacKind};
ghost use Rattle.munge_types.specs.declared.status.Status.{Status};
ghost use Rattle.munge_types.specs.Bytes.{IsBytes};
ghost use Rattle.cred_outer.specs.OuterPart.{vector_size};
ghost use Rattle.cred_open.specs.Body.{IsBody, Seals};
ghost use Rattle.cred_open.specs.Credential.{Credential};
ghost use Rattle.cred_open.specs.OpeningRules.{Opens, Refuses};

use cbc_mode::laws::{chaining_is_one_to_one, padding_is_one_to_one};
use cred_armor::laws::text_spells_one_body;
use cred_inner::laws::inner_part_has_one_content;
use cred_outer::laws::body_has_its_parts_once;
use hmac_core::laws::mac_has_its_size;
use subkeys::laws::data_key_is_bytes;

/// Under a key, a sealed part has one inner part at most.
pub fn sealed_part_has_one_inner_part()
    ensures { (key vector mac inner inner' sealed : List ℕ) (cipher : Cipher) (kind : MacKind)
        → length vector ≡ vector_size cipher → IsBytes vector → IsBytes inner → IsBytes inner'
        → Seals key cipher kind vector mac inner sealed
        → Seals key cipher kind vector mac inner' sealed → inner ≡ inner' }
{
    data_key_is_bytes();
    padding_is_one_to_one();
    chaining_is_one_to_one();
}

/// Under a key, a body has one inner part at most, one cipher, one MAC and one initial vector.
pub fn body_has_one_inner_part()
    ensures inner { (key vector vector' inner inner' body : List ℕ)
        (cipher cipher' : Cipher) (kind kind' : MacKind)
        → IsBody key cipher kind vector inner body → IsBody key cipher' kind' vector' inner' body
        → inner ≡ inner' }
    ensures cipher { (key vector vector' inner inner' body : List ℕ)
        (cipher cipher' : Cipher) (kind kind' : MacKind)
        → IsBody key cipher kind vector inner body → IsBody key cipher' kind' vector' inner' body
        → cipher ≡ cipher' }
    ensures kind { (key vector vector' inner inner' body : List ℕ)
        (cipher cipher' : Cipher) (kind kind' : MacKind)
        → IsBody key cipher kind vector inner body → IsBody key cipher' kind' vector' inner' body
        → kind ≡ kind' }
    ensures vector { (key vector vector' inner inner' body : List ℕ)
        (cipher cipher' : Cipher) (kind kind' : MacKind)
        → IsBody key cipher kind vector inner body → IsBody key cipher' kind' vector' inner' body
        → vector ≡ vector' }
{
    body_has_its_parts_once();
    mac_has_its_size();
    sealed_part_has_one_inner_part();
}

/// A text breaks one rule first, with one status.
pub fn refusal_is_one()
    ensures rule { (key text : List ℕ) (rule rule' : ℕ) (status status' : Status)
        → Refuses key text rule status → Refuses key text rule' status' → rule ≡ rule' }
    ensures status { (key text : List ℕ) (rule rule' : ℕ) (status status' : Status)
        → Refuses key text rule status → Refuses key text rule' status' → status ≡ status' }
{
    text_spells_one_body();
}

/// A text that is refused is no credential.
pub fn refused_is_not_opened()
    ensures { (key text : List ℕ) (rule : ℕ) (status : Status) (credential : Credential)
        → Refuses key text rule status → ¬ Opens key text credential }
{
    text_spells_one_body();
    body_has_one_inner_part();
}

/// A text is one credential at most.
pub fn credential_is_one()
    ensures { (key text : List ℕ) (first second : Credential)
        → Opens key text first → Opens key text second → first ≡ second }
{
    text_spells_one_body();
    body_has_one_inner_part();
    inner_part_has_one_content();
}
