//! The MAC of a credential.

ghost use Rattle.std.specs.Prelude.{◌≡◌, ◌++◌};
ghost use Rattle.hmac_core.specs.Hmac.{hmac};

use munge_types::{MacBytes, MacKind};
use subkeys::Subkeys;

/// The MAC of a credential that has these bytes before its MAC, with this plain inner part: HMAC
/// (RFC 2104) under the subkey of the MAC over the front and the plain part. The two need not stand
/// side by side. It takes no memory.
pub(crate) fn mac_of(subkeys: &Subkeys, kind: MacKind, front: &[u8], plain: &[u8]) -> MacBytes
    ensures { result ≡ hmac kind subkeys.now.mac (front.now ++ plain.now) }
{
    let mut hmac = subkeys.mac_state(kind);
    hmac.update(front);
    hmac.update(plain);
    hmac.finish()
}
