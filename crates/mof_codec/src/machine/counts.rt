//! How many declarations, properties and elements were begun.
ghost use Rattle.std.specs.Prelude.{◌≡◌, ◌<◌, ◌^◌};
ghost use Rattle.mof_codec.specs.Counting.{counted, is_excess};

use crate::machine::state::Event;
use mof_syntax::{MAX_ELEMENTS, MAX_INSTANCES, MAX_PROPERTIES};

/// The declarations of a text, the properties of the last one, and the elements of the last property.
#[derive(Clone, Copy, Debug, PartialEq, Eq)]
pub(crate) struct Counts {
    pub(crate) declarations: usize,
    pub(crate) properties: usize,
    pub(crate) elements: usize,
}

impl Counts {
    /// Before the first declaration.
    pub(crate) const NONE: Counts = Counts {
        declarations: 0,
        properties: 0,
        elements: 0,
    };

    /// The counts with one more event.
    pub(crate) fn with(self, begun: Event) -> Counts
        requires declarations { self.declarations < 2 ^ 63 }
        requires properties { self.properties < 2 ^ 63 }
        requires elements { self.elements < 2 ^ 63 }
        ensures { result ≡ counted begun self }
    {
        match begun {
            Event::Quiet => self,
            Event::Declaration => Counts {
                declarations: self.declarations + 1,
                ..Counts::NONE
            },
            Event::Property => Counts {
                properties: self.properties + 1,
                elements: 0,
                ..self
            },
            Event::Element => Counts {
                elements: self.elements + 1,
                ..self
            },
        }
    }

    /// Returns whether what is begun is one more than there may be.
    pub(crate) fn is_excess(self, begun: Event) -> bool
        ensures { result ≡ is_excess begun self }
    {
        match begun {
            Event::Quiet => false,
            Event::Declaration => self.declarations == MAX_INSTANCES,
            Event::Property => self.properties == MAX_PROPERTIES,
            Event::Element => self.elements == MAX_ELEMENTS,
        }
    }
}
