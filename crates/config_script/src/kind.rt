//! The kinds of resources that a script may hold.

ghost use Rattle.std.specs.Prelude.{◌≡◌, Some, nat_lt, option_map, true};
ghost use Rattle.std.specs.List.{list_all};
ghost use Rattle.std.specs.Str.{chars};
ghost use Rattle.config_script.specs.Checking.{kind_of};
ghost use Rattle.config_script.specs.Denoting.{kind_named};
ghost use Rattle.config_script.specs.Writing.{opening};

use crate::name::is_word;

/// A kind of resource.
#[derive(Clone, Copy, Debug, PartialEq, Eq)]
pub(crate) enum Kind {
    File,
    Environment,
    Log,
    Command,
}

impl Kind {
    /// The kind of that name, by fold.
    pub(crate) fn named(word: &str) -> Option<Kind>
        ensures { option_map kind_of result ≡ kind_named (chars word.now) }
    {
        if is_word(word, "File") {
            Some(Kind::File)
        } else if is_word(word, "Environment") {
            Some(Kind::Environment)
        } else if is_word(word, "Log") {
            Some(Kind::Log)
        } else if is_word(word, "Command") {
            Some(Kind::Command)
        } else {
            None
        }
    }

    /// The first lines of a resource of the kind, up to its name.
    pub(crate) fn opening(self) -> &'static str
        ensures text { result.now ≡ opening (Some (kind_of self)) }
        ensures ascii { list_all (λ c. nat_lt c 128) result.now ≡ true }
    {
        match self {
            Kind::File => "instance of MSFT_FileDirectoryConfiguration\n{\n ResourceID = \"[File]",
            Kind::Environment =>
                "instance of MSFT_EnvironmentResource\n{\n ResourceID = \"[Environment]",
            Kind::Log => "instance of MSFT_LogResource\n{\n ResourceID = \"[Log]",
            Kind::Command => "instance of DSC_CommandResource\n{\n ResourceID = \"[Command]",
        }
    }
}
