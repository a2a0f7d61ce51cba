//! Meta-configurations.
ghost use Rattle.std.specs.Prelude.{◌≡◌};
ghost use Rattle.meta_config.specs.Making.{usual};

use crate::{AfterReboot, ConfigMode, RefreshMode, Server};
use mof_values::{Items, Text};
use std::alloc::Global;

/// How a node is to behave.
#[derive(Debug, Drop, PartialEq)]
pub struct Meta {
    pub mode: ConfigMode,
    pub refresh: RefreshMode,
    pub reboot_if_needed: bool,
    pub after: AfterReboot,

    /// Minutes from one consistency run to the next.
    pub mode_mins: u32,

    /// Minutes from one refresh to the next.
    pub refresh_mins: u32,

    /// It is kept and printed, and has no effect.
    pub module_overwrite: bool,

    /// The one server that all managers name.
    pub server: Option<Server>,

    /// There is a download manager.
    pub pulls: bool,

    /// There is a report manager.
    pub reports: bool,

    /// The ConfigurationNames, each once by fold, in its first spelling.
    pub names: Items<Text>,

    pub partials: Items<Partial>,
}

/// A partial configuration.
#[derive(Debug, Drop, PartialEq)]
pub struct Partial {
    pub name: Text,

    /// The names of the partial configurations that it depends on.
    pub depends: Items<Text>,

    /// What no other partial configuration may have resources of.
    pub exclusive: Items<Text>,

    /// Its own refresh mode, where it has one.
    pub refresh: Option<RefreshMode>,
}

impl Meta {
    /// The meta-configuration of a node that was given none: the default of each property. It takes no memory.
    pub fn usual(alloc: Global) -> Meta
        ensures { result ≡ usual }
    {
        Meta {
            mode: ConfigMode::ApplyAndMonitor,
            refresh: RefreshMode::Push,
            reboot_if_needed: false,
            after: AfterReboot::ContinueConfiguration,
            mode_mins: 15,
            refresh_mins: 30,
            module_overwrite: false,
            server: None,
            pulls: false,
            reports: false,
            names: Items::of(Vec::new(alloc)),
            partials: Items::of(Vec::new(alloc)),
        }
    }
}
