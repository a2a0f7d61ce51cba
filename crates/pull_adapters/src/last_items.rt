//! The items that a shelf gave last, and their digests.
ghost use Rattle.std.specs.Prelude.{◌≡◌, IfSome};
ghost use Rattle.sha2.specs.Sha256.{sha256};

use sha2::{Digest, Sha256};
use std::alloc::Global;
use std::cell::RefCell;
use std::rc::Rc;

/// The most bytes of a small item. It is a measure of this crate's own: what a reader takes as a document is no matter here.
pub const MOST_SMALL_BYTES: usize = 8_388_608;

/// The small item that was digested last, and the larger one, each as one copy with its digest, so that packages do not push
/// out the configuration that a fleet asks for beside them. A shelf puts them here, and a door takes an item from here that a
/// peer does not take at once: both then use the same copy.
#[derive(Drop)]
pub struct LastItems {
    small: LastItem,
    large: LastItem,
}

// The item that was digested last.
#[derive(Drop)]
struct LastItem {
    last: RefCell<Option<Rc<DigestedItem>>>,
}

/// An item, and its SHA-256 digest (FIPS 180-4).
#[derive(Drop)]
pub struct DigestedItem {
    bytes: Vec<u8>,
    digest: [u8; 32],
    ghost whole: { digest ≡ sha256 bytes.items },
}

impl DigestedItem {
    pub fn as_slice(&self) -> &[u8]
        ensures { result.now ≡ self.now.bytes.items }
    {
        &self.bytes
    }
}

impl LastItems {
    /// Nothing is kept; takes no memory.
    pub fn new() -> LastItems {
        LastItems {
            small: LastItem::new(),
            large: LastItem::new(),
        }
    }

    /// The SHA-256 digest of the item. That of bytes that are kept is not computed again; another one is kept in the place of the
    /// last of its kind. Where memory runs out for the copy, none of its kind is kept.
    pub fn digest(&self, alloc: Global, item: &[u8]) -> [u8; 32]
        ensures { result ≡ sha256 item.now }
    {
        self.kind_of(item).digest(alloc, item)
    }

    /// The item that is kept and has these bytes.
    pub fn find(&self, bytes: &[u8]) -> Option<Rc<DigestedItem>>
        ensures { IfSome result (λ item. item.value.bytes.items ≡ bytes.now) }
    {
        self.kind_of(bytes).find(bytes)
    }

    fn kind_of(&self, item: &[u8]) -> &LastItem {
        if item.len() <= MOST_SMALL_BYTES {
            &self.small
        } else {
            &self.large
        }
    }
}

impl LastItem {
    fn new() -> LastItem {
        LastItem {
            last: RefCell::new(None),
        }
    }

    fn digest(&self, alloc: Global, item: &[u8]) -> [u8; 32]
        ensures { result ≡ sha256 item.now }
    {
        if let Some(kept) = self.find(item) {
            return kept.digest;
        }
        let digest = Sha256::digest(item);
        // What was kept is freed before the copy is allocated, unless it is still used.
        self.keep(None);
        if let Ok(bytes) = item.to_vec(alloc) {
            self.keep(Rc::new(alloc, DigestedItem { bytes, digest }).ok());
        }
        digest
    }

    fn keep(&self, item: Option<Rc<DigestedItem>>) {
        let _ = self.last.try_replace(item);
    }

    // The item that is kept, where it has these bytes.
    fn find(&self, bytes: &[u8]) -> Option<Rc<DigestedItem>>
        ensures { IfSome result (λ item. item.value.bytes.items ≡ bytes.now) }
    {
        let Ok(last) = self.last.try_borrow() else {
            return None;
        };
        match &*last {
            Some(item) if item.as_slice() == bytes => item.clone().ok(),
            _ => None,
        }
    }
}
