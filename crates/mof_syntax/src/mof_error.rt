//! Why a text is refused.
ghost use Rattle.std.specs.Prelude.{◌≡◌};
ghost use Rattle.mof_syntax.specs.Forms.{form_name};

use std::fmt;

/// Why bytes spell no instances. Places count characters after the mark from 0, and in `Text` bytes with the mark.
#[derive(Clone, Copy, Debug, PartialEq, Eq)]
pub enum MofError {
    /// More bytes than a document may have.
    TooLong,

    /// At `at` begins the first sequence of bytes that is no character.
    Text { at: usize },

    /// The text is not in the grammar, and `at` is the length of the longest prefix with which a text of it begins.
    Syntax { at: usize },

    /// At `at` begins a form of DSP0004 that is left out here.
    OutOfProfile { at: usize, what: Form },

    /// The integer at `at` is below -2^63 or above 2^64-1.
    NumberRange { at: usize },

    /// The declaration, property, element or identifier at `at` is the first past its limit.
    TooMany { at: usize },

    Memory,
}

/// A form of DSP0004 that is left out.
#[derive(Clone, Copy, Debug, PartialEq, Eq)]
pub enum Form {
    /// A compiler directive.
    Pragma,

    /// A list of qualifiers.
    Qualifiers,

    /// A class declaration.
    Class,

    /// A qualifier declaration.
    Qualifier,

    /// A character constant.
    Character,

    /// A floating-point constant.
    Real,
}

impl fmt::Display for MofError {
    fn fmt<W: fmt::Write>(&self, f: &mut fmt::Formatter<W>) -> fmt::Result {
        match self {
            MofError::TooLong => f.write_str("longer than a document may be"),
            MofError::Text { at } => write!(f, "no character at byte {at}"),
            MofError::Syntax { at } => write!(f, "not in the grammar at character {at}"),
            MofError::OutOfProfile { at, what } => {
                write!(f, "{what} at character {at} is out of the profile")
            }
            MofError::NumberRange { at } => write!(f, "integer at character {at} out of range"),
            MofError::TooMany { at } => write!(f, "past a limit at character {at}"),
            MofError::Memory => f.write_str("out of memory"),
        }
    }
}

impl Form {
    /// Its name in printed texts.
    pub fn name(self) -> &'static str
        ensures { result.now ≡ form_name self }
    {
        match self {
            Form::Pragma => "pragma",
            Form::Qualifiers => "qualifiers",
            Form::Class => "class",
            Form::Qualifier => "qualifier",
            Form::Character => "character",
            Form::Real => "real",
        }
    }
}

impl fmt::Display for Form {
    fn fmt<W: fmt::Write>(&self, f: &mut fmt::Formatter<W>) -> fmt::Result {
        f.write_str(self.name())
    }
}
