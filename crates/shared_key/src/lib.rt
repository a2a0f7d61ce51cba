//! Digests, their texts, and signatures under a shared key. No call takes memory.
//!
//! A layer above may rely on each result as an equation: a digest is SHA-256 (FIPS 180-4), a checksum its text in base
//! 16 (RFC 4648, section 8), a signature the base64 (RFC 4648, section 4) of HMAC (RFC 2104) with SHA-256. That any of
//! these is hard to forge is not claimed, and nothing is of the time that a call takes.
//!
//! Where a thing is:
//! - a digest and its text: `src/checksum.rt`, `specs/Checksum.antt`
//! - a hash under a key: `src/keyed_hash.rt`, `specs/Hmac.antt`; what one in progress has taken in
//!   `specs/KeyedHash.antt`
//! - a signature: `src/signature.rt`, `specs/Signature.antt`
#![tactic(auto)]

mod checksum;
mod keyed_hash;
mod signature;

pub use checksum::{checksum_text, digest, read_checksum};
pub use keyed_hash::hmac;
pub use signature::{sign, verify};
