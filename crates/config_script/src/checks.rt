//! What is wrong with a script, and whether it names a node, as far as it was read.
ghost use Rattle.std.specs.Prelude.{◌≡◌, ◌||◌, [], ◌∷◌, None, false};
ghost use Rattle.std.specs.Str.{chars};
ghost use Rattle.mof_syntax.specs.Scanning.{left_of};
ghost use Rattle.mof_values.specs.Fold.{same_name};
ghost use Rattle.config_script.specs.Checking.{unknown_in, reserved_in, named_in, or_else};
ghost use Rattle.config_script.specs.Denoting.{is_reserved};
ghost use Rattle.config_script.specs.Named.{name_chars};
ghost use Rattle.config_script.specs.Places.{event_of};

use crate::kind::Kind;
use crate::name::{Name, is_word};
use crate::part::Part;

/// What was found in the parts of a script.
#[derive(Clone, Copy, Debug)]
pub(crate) struct Findings<'a> {
    /// The script from the first kind on that is not known.
    pub(crate) unknown: Option<&'a str>,

    /// The script from the first property on whose name is reserved.
    pub(crate) reserved: Option<&'a str>,

    /// Whether some block names the node.
    pub(crate) names_node: bool,
}

impl<'a> Findings<'a> {
    /// Where no part was read.
    pub(crate) fn none() -> Findings<'a>
        ensures unknown { left_of result.unknown ≡ None }
        ensures reserved { left_of result.reserved ≡ None }
        ensures named { result.names_node ≡ false }
    {
        Findings {
            unknown: None,
            reserved: None,
            names_node: false,
        }
    }

    /// With a further part.
    pub(crate) fn with(self, part: Part<'a>, node: &[char]) -> Findings<'a>
        ensures unknown { left_of result.unknown
            ≡ or_else (left_of self.entry.unknown) (unknown_in (event_of part.entry ∷ [])) }
        ensures reserved { left_of result.reserved
            ≡ or_else (left_of self.entry.reserved) (reserved_in (event_of part.entry ∷ [])) }
        ensures named { result.names_node
            ≡ (self.entry.names_node || named_in node.now (event_of part.entry ∷ [])) }
    {
        match part {
            Part::Kind(word) if self.unknown.is_none() && Kind::named(word.text).is_none() =>
                Findings {
                    unknown: Some(word.from),
                    ..self
                },
            Part::Property(word) if self.reserved.is_none() && is_reserved(word.text) => Findings {
                reserved: Some(word.from),
                ..self
            },
            Part::Node(name) => Findings {
                names_node: self.names_node || is_node(name, node),
                ..self
            },
            _ => self,
        }
    }
}

// Returns whether a script may give no property of that name.
fn is_reserved(word: &str) -> bool
    ensures { result ≡ is_reserved (chars word.now) }
{
    is_word(word, "ResourceID")
        || is_word(word, "ModuleName")
        || is_word(word, "ModuleVersion")
        || is_word(word, "SourceInfo")
        || is_word(word, "ConfigurationName")
}

// Returns whether the name is the node's, by fold.
fn is_node(name: Name<'_>, node: &[char]) -> bool
    ensures { result ≡ same_name (name_chars name.entry) node.now }
{
    name.is_same(node)
}
