//! A Blob: bytes under their digest.
ghost use Rattle.std.specs.Prelude.{◌≡◌, ◌<◌, ◌^◌, length};
ghost use Rattle.sha2.specs.Sha256.{sha256};

use partial_merge::SharedBytes;

/// The bytes of a Blob, with their digest.
#[derive(Debug, Drop)]
pub struct Blob {
    /// The SHA-256 digest of the bytes (FIPS 180-4).
    pub digest: [u8; 32],

    pub bytes: SharedBytes,

    ghost whole: { digest ≡ sha256 bytes },

    ghost small: { length bytes < 2 ^ 32 },
}
