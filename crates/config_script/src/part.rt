//! The parts of a script, in the order of its text.

use crate::name::Name;
use crate::number::Number;

/// A word where it stands.
#[derive(Clone, Copy, Debug)]
pub(crate) struct Word<'a> {
    pub(crate) text: &'a str,

    /// The script from the word on.
    pub(crate) from: &'a str,
}

#[derive(Clone, Copy, Debug)]
pub(crate) enum Scalar<'a> {
    Text(Name<'a>),
    Integer(Number<'a>),
    Bool(bool),
    Null,
}

/// What a token adds to the script.
#[derive(Clone, Copy, Debug)]
pub(crate) enum Part<'a> {
    /// The name of the configuration.
    Title(&'a str),

    /// A name of a node block.
    Node(Name<'a>),

    BlockEnd,
    Kind(Word<'a>),
    ResourceName(Name<'a>),
    ResourceEnd,
    Property(Word<'a>),

    /// The value of a property that is no array.
    One(Scalar<'a>),

    ArrayBegin,

    /// The first element of an array.
    Element(Scalar<'a>),

    Further(Scalar<'a>),
    ArrayEnd,
}
