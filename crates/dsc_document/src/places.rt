//! The places of names that compare by fold.
ghost use Rattle.std.specs.Prelude.{◌≡◌, ℕ, List, IfOk, OnOk, option_copied};
ghost use Rattle.mof_values.specs.Fold.{fold_case};
ghost use Rattle.dsc_document.specs.Places.{place_of, place_of_any, Puts, PutsIfAny};

use std::alloc::{AllocError, Global};
use std::collections::BTreeMap;

/// A place for each of some names; names with equal folds are one.
#[derive(Drop)]
pub struct Places {
    by_fold: BTreeMap<Vec<char>, u32>,
    alloc: Global,
}

impl Places {
    /// No name has a place.
    pub fn new(alloc: Global) -> Places
        ensures { (name : List ℕ) → place_of result name ≡ None }
    {
        Places {
            by_fold: BTreeMap::new(alloc),
            alloc,
        }
    }

    /// Gives the name this place, and returns the one that it had. Out of memory, nothing is known of the places.
    pub fn put(&mut self, name: &[char], place: u32) -> Result<Option<u32>, AllocError>
        ensures had { IfOk result (λ had. had ≡ place_of self.old name.now) }
        ensures put { OnOk result (Puts self.old self.new name.now place) }
    {
        Ok(self.by_fold.insert(folded(self.alloc, name)?, place)?)
    }

    /// Puts a name, if there is one; else nothing changes, and no place is returned.
    pub fn put_any(&mut self, name: Option<&[char]>, place: u32) -> Result<Option<u32>, AllocError>
        ensures had { IfOk result (λ had. had ≡ place_of_any self.old (option_copied name.entry)) }
        ensures put { OnOk result (PutsIfAny self.old self.new (option_copied name.entry) place) }
    {
        match name {
            Some(name) => self.put(name, place),
            None => Ok(None),
        }
    }

    /// The place that the name has; takes memory for its fold.
    pub fn find(&self, name: &[char]) -> Result<Option<u32>, AllocError>
        ensures { IfOk result (λ found. found ≡ place_of self.now name.now) }
    {
        let fold = folded(self.alloc, name)?;
        Ok(self.by_fold.get(fold.as_slice()).copied())
    }
}

fn folded(alloc: Global, name: &[char]) -> Result<Vec<char>, AllocError>
    ensures { IfOk result (λ fold. fold.items ≡ fold_case name.now) }
{
    name.iter().map(|c| c.to_ascii_lowercase()).collect(alloc)
}
