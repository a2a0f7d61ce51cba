//! The shelf that is a folder.
ghost use Rattle.std.specs.Prelude.{◌≡◌, None, Ok, false};
ghost use Rattle.sha2.specs.Sha256.{sha256};
ghost use Rattle.dsc_outside.specs.Causes.{HasCauseOf};
ghost use Rattle.shelf_layout.specs.Layout.{is_shelf_name};
ghost use Rattle.pull_outside.specs.Shelf.{Leaves};

use crate::last_items::LastItems;
use crate::shelf_folder::ShelfFolder;
use pull_outside::{Shelf, ShelfError};
use std::marker::Model;
use std::rt::Files;

/// A shelf whose items are plain files in a folder, FOLDER:
///
/// - `configurations/NAME.mof` is the configuration of that name;
/// - `modules/NAME_VERSION.zip` is the package of the module of that name and version;
/// - `keys` has a key on each line that is not empty; a line ends with a line feed, before which one carriage return is left
///   out, or with the text.
///
/// A file or a folder that is missing means that what it would hold is not there, and so does a name that is too long for
/// the file system. A name that begins with `.`, or that has `/`, `\` or a NUL, is on no shelf. A link, a folder or anything
/// else but a plain file in an item's place is a failure, and so is a file of more than `LONGEST_ITEM` bytes, that of the keys
/// too, and one that is changed each time while it is read. FOLDER and its two folders may be links.
///
/// Nothing is touched before the first call, and each look reads its file anew: what an administrator puts in place counts from
/// the next call on. Put a file in place by a rename, so that none is seen that is half written. All that is kept from one call
/// to the next is the digest that was computed last of an item of at most 8,388,608 bytes, and of a larger one, each with a copy
/// of the item, in `LastItems`; it is given again for equal bytes alone. A clause sees a shelf as the number of its calls that failed.
#[derive(Drop)]
pub struct FolderShelf<'i, R: Files> {
    folder: ShelfFolder<R>,
    last: &'i LastItems,
    faults: u64,
}

impl<'i, R: Files> Model for FolderShelf<'i, R> {
    ghost use Rattle.std.specs.Prelude.{ℕ};

    ghost Value = { ℕ };

    ghost view = { λ s. s.faults };
}

impl<'i, R: Files> FolderShelf<'i, R> {
    /// The shelf in the folder of that path, and the items that it gave last. An empty path is that of no folder: nothing is there.
    pub fn new(rt: R, folder: String, last: &'i LastItems) -> FolderShelf<'i, R>
        ensures { result ≡ 0 }
    {
        FolderShelf {
            folder: ShelfFolder { rt, path: folder },
            last,
            faults: 0,
        }
    }

    // Counts the call where it failed, and hands its outcome on.
    fn counted(&mut self, outcome: Result<bool, ShelfError>) -> Result<bool, ShelfError>
        ensures same { result ≡ outcome }
        ensures cause { HasCauseOf ShelfError.Failed self.old self.new outcome }
    {
        if matches!(outcome, Err(ShelfError::Failed)) {
            self.faults = self.faults.saturating_add(1);
        }
        outcome
    }
}

impl<'i, R: Files> Shelf for FolderShelf<'i, R> {
    ghost holds = { λ s. None };

    ghost faults = { λ s. s };

    fn configuration(&mut self, name: &str, into: &mut Vec<u8>) -> Result<bool, ShelfError>
        ensures leaves { Leaves result into.old.items into.new.items }
        ensures cause { HasCauseOf ShelfError.Failed self.old self.new result }

        // No name leads out of the folder.
        ensures off { is_shelf_name name.now ≡ false → result ≡ Ok false }
    {
        let outcome = self.folder.configuration(name, into);
        self.counted(outcome)
    }

    fn package(&mut self, name: &str, version: &str, into: &mut Vec<u8>) -> Result<bool, ShelfError>
        ensures leaves { Leaves result into.old.items into.new.items }
        ensures cause { HasCauseOf ShelfError.Failed self.old self.new result }

        // No name and no version leads out of the folder.
        ensures off { is_shelf_name name.now ≡ false → result ≡ Ok false }
        ensures off_version { is_shelf_name version.now ≡ false → result ≡ Ok false }
    {
        let outcome = self.folder.package(name, version, into);
        self.counted(outcome)
    }

    fn key(&mut self, index: u32, into: &mut Vec<u8>) -> Result<bool, ShelfError>
        ensures leaves { Leaves result into.old.items into.new.items }
        ensures cause { HasCauseOf ShelfError.Failed self.old self.new result }
    {
        let outcome = self.folder.key(index, into);
        self.counted(outcome)
    }

    fn digest(&mut self, item: &[u8]) -> [u8; 32]
        ensures digest { result ≡ sha256 item.now }
        ensures faults { self.new ≡ self.old }
    {
        self.last.digest(self.folder.alloc(), item)
    }
}
