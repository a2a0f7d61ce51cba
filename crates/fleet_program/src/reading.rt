//! The rows of one image of a store's file, while its server writes it.
//!
//! A server adds bytes behind the closed gate of the live bank, and opens that gate once they are on the disk; a rewrite fills the
//! other bank, and then changes the selector. So the bodies that are read one after the other of a bank that stays live are those
//! of one image, up to the gate that was closed when it was read, and the selector is the mark of `ImageFile`. Where it changed,
//! or the file grew before its end was read, the store is read anew.
use image_file::ImageFile;
use mof_values::Text;
use pull_store::{PullError, PullStore, open_pull};
use std::fs::File;
use std::rt::Files;

/// The place of the byte that says which bank of a store is live.
const SELECTOR_AT: u64 = 7;

/// How often a store is read anew.
const TRIES: u32 = 100;

/// Opens the store whose file has that path, as `open_pull` does, over one image of it. The file is left as it is.
pub fn open_image(rt: &HostRuntime, path: &Text) -> Result<PullStore, PullError> {
    for _ in 0..TRIES {
        let mut file = ImageFile::new(rt, rt.alloc(), path.to_utf8()?, SELECTOR_AT)?;
        let opened = open_pull(rt.alloc(), &mut file);
        if is_of_one_image(&mut file, &opened) {
            return opened;
        }
    }
    Err(PullError::Disk)
}

// A store that seems to be none may have grown while it was read.
fn is_of_one_image<R: Files<File = File>>(
    file: &mut ImageFile<R>,
    opened: &Result<PullStore, PullError>,
) -> bool {
    match opened {
        Err(PullError::NotAStore { .. }) => {
            file.has_kept_its_mark() && file.has_kept_its_length()
        }
        _ => file.has_kept_its_mark(),
    }
}
