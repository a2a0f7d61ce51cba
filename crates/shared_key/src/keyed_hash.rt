//! HMAC with SHA-256 (RFC 2104).
ghost use Rattle.std.specs.Prelude.{◌≡◌, ◌≤◌, ◌-◌, ◌++◌, ℕ, List, [], length, map, replicate, bit_xor};
ghost use Rattle.shared_key.specs.Hmac.{hmac_of, key_block};
ghost use Rattle.shared_key.specs.KeyedHash.{Holds};

use sha2::{Digest, Sha256};

// The bytes that the pads ipad and opad repeat.
const INNER_PAD: u8 = 0x36;

const OUTER_PAD: u8 = 0x5c;

/// HMAC with SHA-256 of the text under the key (RFC 2104, section 2).
pub fn hmac(key: &[u8], text: &[u8]) -> [u8; 32]
    ensures { result ≡ hmac_of key.now text.now }
{
    let mut hash = KeyedHash::new(key);
    hash.update(text);
    hash.finalize()
}

/// The hash of a text under a key, which takes the text piece by piece.
#[derive(Drop)]
pub(crate) struct KeyedHash {
    inner: Sha256,
    outer: Sha256,
}

impl KeyedHash {
    /// A hash of the empty text.
    #[tactic(auto, unfolding(crate::specs::KeyedHash::Holds))]
    pub fn new(key: &[u8]) -> KeyedHash
        ensures { Holds result key.now [] }
    {
        let block = padded_key(key);
        KeyedHash {
            inner: Sha256::new_with_prefix(masked(&block, INNER_PAD)),
            outer: Sha256::new_with_prefix(masked(&block, OUTER_PAD)),
        }
    }

    /// Adds a piece to the text.
    #[tactic(auto, unfolding(crate::specs::KeyedHash::Holds))]
    pub fn update(&mut self, piece: &[u8])
        ensures { (key text : List ℕ) → Holds self.old key text
            → Holds self.new key (text ++ piece.now) }
    {
        self.inner.update(piece);
    }

    /// HMAC of the text.
    #[tactic(auto, unfolding(crate::specs::KeyedHash::Holds, crate::specs::Hmac::hmac_of))]
    pub fn finalize(self) -> [u8; 32]
        ensures { (key text : List ℕ) → Holds self key text → result ≡ hmac_of key text }
    {
        let KeyedHash { inner, mut outer } = self;
        outer.update(inner.finalize());
        outer.finalize()
    }
}

// The key as a block of the hash.
fn padded_key(key: &[u8]) -> [u8; 64]
    ensures { result ≡ key_block key.now }
{
    if key.len() > 64 {
        padded(&Sha256::digest(key))
    } else {
        padded(key)
    }
}

fn padded(key: &[u8]) -> [u8; 64]
    requires { length key.now ≤ 64 }
    ensures { result ≡ key.now ++ replicate (64 - length key.now) 0 }
{
    let mut block = [0u8; 64];
    let (front, _) = block.split_at_mut(key.len());
    front.copy_from_slice(key);
    block
}

// Each byte of the block exclusive-or the mask.
fn masked(block: &[u8; 64], mask: u8) -> [u8; 64]
    ensures { result ≡ map (bit_xor mask) block.now }
{
    let mut masked = [0u8; 64];
    for (i, byte) in block.iter().enumerate() {
        masked[i] = mask ^ *byte;
    }
    masked
}
