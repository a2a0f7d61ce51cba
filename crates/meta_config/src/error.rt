//! Why a text declares no meta-configuration.
ghost use Rattle.std.specs.Prelude.{◌≡◌};
ghost use Rattle.meta_config.specs.declared.error.MetaError.TheVariants.{Memory};

use mof_codec::MofError;
use mof_values::{Ident, Text};
use std::alloc::{AllocError, AllocFailed};

/// Why a text declares no meta-configuration. An index is an instance's place in the text, counted from 0.
///
/// The faults stand in the order in which they win; of one kind the least index is reported, and of a pair the least
/// second and then the least first.
#[derive(Debug, Drop, PartialEq)]
pub enum MetaError {
    /// The text spells no instances.
    Mof(MofError),

    /// There is no MSFT_DSCMetaConfiguration.
    NoMeta,

    TwoMetas { first: u32, second: u32 },

    /// Two download managers, or else two report managers.
    TwoManagers { first: u32, second: u32 },

    /// The ServerURL of a manager is missing, is not of its form, or has more than `MAX_URL` bytes, as it is given or as it
    /// is written.
    BadUrl { index: u32 },

    /// The first manager, and the first that names another server.
    TwoServers { first: u32, second: u32 },

    /// The property `name`, as it is spelled, has a value that may not stand there, or is the second of its name; or it
    /// is missing.
    BadValue { index: u32, name: Ident },

    TooMany { name: Limit },

    /// Two partial configurations have the same name.
    DuplicatePartial { first: u32, second: u32 },

    /// No partial configuration has the name `name`, the first such name in the DependsOn.
    DependsUnknown { index: u32, name: Text },

    Memory,
}

/// What there may be only so much of in a meta-configuration.
#[derive(Clone, Copy, Debug, PartialEq, Eq)]
pub enum Limit {
    /// `MAX_PARTIALS` partial configurations.
    Partials,

    /// `MAX_NAMES` names.
    Names,

    /// `MAX_META_TEXT` bytes of canonical text.
    Text,
}

impl From<AllocError> for MetaError {
    ghost from_gives = { λ _ e. e ≡ Memory };

    fn from(_: AllocError) -> Self {
        MetaError::Memory
    }
}

impl<T: Drop> From<AllocFailed<T>> for MetaError {
    ghost from_gives = { λ _ e. e ≡ Memory };

    fn from(_: AllocFailed<T>) -> Self {
        MetaError::Memory
    }
}
