//! Lists of parts that several places share.
ghost use Rattle.std.specs.Prelude.{◌≡◌, IfOk};

use mof_values::{Items, Memory};
use partial_merge::Part;
use std::alloc::Global;
use std::marker::Model;
use std::rc::Rc;

/// A list of parts, which stands in memory once for all that share it.
#[derive(Debug, Drop)]
pub struct SharedParts {
    list: Rc<Items<Part>>,
}

impl Model for SharedParts {
    ghost use Rattle.std.specs.Prelude.{List};
    ghost use Rattle.partial_merge.specs.declared.part.Part.{Part};

    ghost Value = { List Part };

    ghost view = { λ s. s.list.value };
}

impl SharedParts {
    /// The list of these parts. The memory is that of a pointer and two counts, whatever the parts have.
    pub fn of(alloc: Global, parts: Vec<Part>) -> Result<SharedParts, Memory>
        ensures { IfOk result (λ shared. shared ≡ parts.items) }
    {
        let list = Rc::new(alloc, Items::of(parts))?;
        Ok(SharedParts { list })
    }

    /// The same list once more. Takes no memory; refused only where it is shared as often as a `usize` counts.
    pub fn share(&self) -> Result<SharedParts, Memory>
        ensures { IfOk result (λ shared. shared ≡ self.now) }
    {
        let list = self.list.clone()?;
        Ok(SharedParts { list })
    }

    pub fn as_slice(&self) -> &[Part]
        ensures { result.now ≡ self.now }
    {
        self.list.as_slice()
    }
}
