//! Lists of parts that a node may keep.
ghost use Rattle.std.specs.Prelude.{◌≡◌};
ghost use Rattle.node_state.specs.Lists.{IsStaged};

use crate::SharedParts;
use partial_merge::Part;

/// A list of 1 to `MAX_PARTS` parts that are merged to a document: names of at most `MAX_NAME_BYTES` bytes of UTF-8, and at
/// most `MAX_BYTES` bytes together.
#[derive(Debug, Drop)]
pub struct Staged {
    pub(crate) parts: SharedParts,

    ghost whole: { IsStaged parts },
}

impl Staged {
    pub fn parts(&self) -> &[Part]
        ensures { result.now ≡ self.now.parts }
    {
        self.parts.as_slice()
    }

    pub fn into_parts(self) -> SharedParts
        ensures parts { result ≡ self.parts }
        ensures whole { IsStaged result }
    {
        self.parts
    }
}
