//! The ciphers and MACs of a credential, with their numbers in its outer part.

ghost use Rattle.std.specs.Prelude.{◌≡◌, ◌≢◌, ◌<◌, IfSome, IfNone};
ghost use Rattle.munge_types.specs.Algorithms.{cipher_number, mac_number, mac_size};
ghost use Rattle.munge_types.specs.declared.algorithms.Cipher.{Cipher};
ghost use Rattle.munge_types.specs.declared.algorithms.MacKind.{MacKind};

/// The cipher of a credential's sealed part.
#[derive(Clone, Copy, Debug, PartialEq, Eq)]
pub enum Cipher {
    /// The inner part stands in the credential as it is.
    None,
    /// AES with a key of 16 bytes (FIPS 197), in CBC mode.
    Aes128,
    /// AES with a key of 32 bytes (FIPS 197), in CBC mode.
    Aes256,
}

impl Cipher {
    /// The cipher's number in a credential: 0, 4 or 5.
    pub fn number(self) -> u8
        ensures { result ≡ cipher_number self }
    {
        match self {
            Cipher::None => 0,
            Cipher::Aes128 => 4,
            Cipher::Aes256 => 5,
        }
    }

    /// The cipher of this number, and None where no cipher has it.
    pub fn of(n: u8) -> Option<Cipher>
        ensures found { IfSome result (λ cipher. cipher_number cipher ≡ n) }
        ensures none { IfNone result ((cipher : Cipher) → cipher_number cipher ≢ n) }
    {
        match n {
            0 => Some(Cipher::None),
            4 => Some(Cipher::Aes128),
            5 => Some(Cipher::Aes256),
            _ => None,
        }
    }
}

/// The hash under a credential's MAC, which is HMAC (RFC 2104) with that hash.
#[derive(Clone, Copy, Debug, PartialEq, Eq)]
pub enum MacKind {
    /// SHA-1 (FIPS 180-4).
    Sha1,
    /// SHA-256 (FIPS 180-4).
    Sha256,
    /// SHA-512 (FIPS 180-4).
    Sha512,
}

impl MacKind {
    /// The MAC's number in a credential: 3, 5 or 6.
    pub fn number(self) -> u8
        ensures { result ≡ mac_number self }
    {
        match self {
            MacKind::Sha1 => 3,
            MacKind::Sha256 => 5,
            MacKind::Sha512 => 6,
        }
    }

    /// The bytes of such a MAC: 20, 32 or 64.
    pub fn size(self) -> usize
        ensures { result ≡ mac_size self }
    {
        match self {
            MacKind::Sha1 => 20,
            MacKind::Sha256 => 32,
            MacKind::Sha512 => 64,
        }
    }

    /// The MAC of this number, and None where no MAC has it.
    pub fn of(n: u8) -> Option<MacKind>
        ensures found { IfSome result (λ kind. mac_number kind ≡ n) }
        ensures none { IfNone result ((kind : MacKind) → mac_number kind ≢ n) }
    {
        match n {
            3 => Some(MacKind::Sha1),
            5 => Some(MacKind::Sha256),
            6 => Some(MacKind::Sha512),
            _ => None,
        }
    }
}
