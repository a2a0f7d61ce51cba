//! A folder with what a server hands out.
ghost use Rattle.std.specs.Prelude.{◌≡◌, Ok, false};
ghost use Rattle.shelf_layout.specs.Layout.{is_shelf_name};
ghost use Rattle.pull_outside.specs.Shelf.{Leaves};

use crate::item_files::append_item;
use pull_outside::ShelfError;
use shelf_layout::{configuration_place, is_shelf_name, key_at, keys_place, package_place};
use std::alloc::Global;
use std::rt::Files;

/// The folder of that path. An empty path is that of no folder.
#[derive(Drop)]
pub struct ShelfFolder<R: Files> {
    pub rt: R,
    pub path: String,
}

impl<R: Files> ShelfFolder<R> {
    pub fn configuration(&self, name: &str, into: &mut Vec<u8>) -> Result<bool, ShelfError>
        ensures leaves { Leaves result into.old.items into.new.items }
        ensures off { is_shelf_name name.now ≡ false → result ≡ Ok false }
    {
        if self.path.is_empty() || !is_shelf_name(name) {
            return Ok(false);
        }
        let place = configuration_place(self.alloc(), &self.path, name)?;
        append_item(&self.rt, place.as_str(), into)
    }

    pub fn package(&self, name: &str, version: &str, into: &mut Vec<u8>) -> Result<bool, ShelfError>
        ensures leaves { Leaves result into.old.items into.new.items }
        ensures off { is_shelf_name name.now ≡ false → result ≡ Ok false }
        ensures off_version { is_shelf_name version.now ≡ false → result ≡ Ok false }
    {
        if self.path.is_empty() || !is_shelf_name(name) || !is_shelf_name(version) {
            return Ok(false);
        }
        let place = package_place(self.alloc(), &self.path, name, version)?;
        append_item(&self.rt, place.as_str(), into)
    }

    pub fn key(&self, index: u32, into: &mut Vec<u8>) -> Result<bool, ShelfError>
        ensures leaves { Leaves result into.old.items into.new.items }
    {
        if self.path.is_empty() {
            return Ok(false);
        }
        let place = keys_place(self.alloc(), &self.path)?;
        let mut text = Vec::new(self.alloc());
        if !append_item(&self.rt, place.as_str(), &mut text)? {
            return Ok(false);
        }
        match key_at(&text, index) {
            None => Ok(false),
            Some(key) => {
                into.extend_from_slice(key)?;
                Ok(true)
            }
        }
    }

    /// Where its memory comes from.
    pub fn alloc(&self) -> Global {
        *self.path.allocator()
    }
}
