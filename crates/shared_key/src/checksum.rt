//! SHA-256 digests, and checksums, which are their texts.
ghost use Rattle.std.specs.Prelude.{◌≡◌, ◌↔◌, IsSome, IfSome};
ghost use Rattle.std.specs.Str.{str_to_ascii_uppercase};
ghost use Rattle.sha2.specs.Sha256.{sha256};
ghost use Rattle.shared_key.specs.Checksum.{checksum_of, spelled_digest, IsChecksum};

use hex::FromHex;
use sha2::{Digest, Sha256};

/// The SHA-256 digest of the bytes (FIPS 180-4, section 6.2).
pub fn digest(bytes: &[u8]) -> [u8; 32]
    ensures { result ≡ sha256 bytes.now }
{
    Sha256::digest(bytes)
}

/// The checksum of a digest: its text in hexadecimal digits, with letters in upper case.
#[tactic(auto, unfolding(crate::specs::Checksum::checksum_of, crate::specs::Checksum::spelled_digest))]
pub fn checksum_text(digest: &[u8; 32]) -> [u8; 64]
    ensures text { result ≡ checksum_of digest.now }
    ensures reads_back { spelled_digest result ≡ Some digest.now }
{
    let mut text = [0u8; 64];
    hex::encode_to_slice(digest, &mut text).unwrap();
    text.make_ascii_uppercase();
    text
}

/// The digest whose checksum the text is, with letters in either case; `None` where the text is not 64 hexadecimal
/// digits.
#[tactic(auto, unfolding(crate::specs::Checksum::checksum_of, crate::specs::Checksum::spelled_digest))]
pub fn read_checksum(text: &[u8]) -> Option<[u8; 32]>
    ensures value { result ≡ spelled_digest text.now }
    ensures found { IsSome result ↔ IsChecksum text.now }
    ensures spelled { IfSome result (λ digest.
        str_to_ascii_uppercase text.now ≡ checksum_of digest) }
{
    <[u8; 32]>::from_hex(text).ok()
}
