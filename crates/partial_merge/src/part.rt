//! Parts of a configuration, each with the digest of its text.
ghost use Rattle.std.specs.Prelude.{◌≡◌, IfOk};
ghost use Rattle.sha2.specs.Sha256.{sha256};

use crate::shared_bytes::SharedBytes;
use mof_values::{Bytes, Memory, Text};
use shared_key::digest;
use std::alloc::{AllocError, Global};

/// A part of a configuration: the text of a document, under a name.
#[derive(Debug, Drop)]
pub struct Part {
    pub name: Text,

    /// The SHA-256 digest of the bytes (FIPS 180-4).
    pub digest: [u8; 32],

    /// The document's text, in one of the encodings of a document.
    pub bytes: SharedBytes,

    ghost whole: { digest ≡ sha256 bytes },
}

/// The part of this name and text. The memory is that of a pointer and two counts, whatever the text.
pub fn part_of(alloc: Global, name: Text, bytes: Bytes) -> Result<Part, AllocError>
    ensures name { IfOk result (λ part. part.name ≡ name) }
    ensures bytes { IfOk result (λ part. part.bytes ≡ bytes) }
{
    let digest = digest(bytes.as_slice());
    Ok(Part {
        name,
        digest,
        bytes: SharedBytes::of(alloc, bytes)?,
    })
}

impl Part {
    /// An equal part, which shares the bytes.
    pub fn copy(&self) -> Result<Part, Memory>
        ensures { IfOk result (λ copy. copy ≡ self.now) }
    {
        Ok(Part {
            name: self.name.copy()?,
            digest: self.digest,
            bytes: self.bytes.share()?,
        })
    }
}
