//! Machines that also keep module packages.
ghost use Rattle.std.specs.Prelude.{◌≡◌, List, OnOk, Option};
ghost use Rattle.dsc_outside.specs.Causes.{HasCauseOf};
ghost use Rattle.dsc_outside.specs.declared.entries.Package.{Package};
ghost use Rattle.resource_kinds.specs.Packages.{AddsAtMost, AddsPackage, TellsPackage};

use crate::resources::Resources;
use dsc_outside::HostError;

/// The resources of a machine that also keeps module packages. The calls on packages keep no entry.
pub trait Machine: Resources {
    /// The packages, the oldest first, where they are shown.
    ghost packages: { Self → Option (List Package) };

    /// Nothing has changed but the packages.
    ghost packages_changed: { Self → Self → Type 0 };

    /// Answers whether a package of that name and version is there.
    fn package_has(&mut self, name: &str, version: &str) -> Result<bool, HostError>
        ensures trace { Self.trace self.new ≡ Self.trace self.old }
        ensures capacity { Self.spare self.new ≡ Self.spare self.old }
        ensures still { Self.still self.old self.new }
        ensures same { packages self.new ≡ packages self.old }
        ensures answer { TellsPackage (packages self.old) name.now version.now result }
        ensures cause { HasCauseOf HostError.Failed
            (Self.faults self.old) (Self.faults self.new) result };

    /// Adds a package at the end of the list.
    fn package_put(&mut self, name: &str, version: &str, bytes: &[u8]) -> Result<(), HostError>
        ensures trace { Self.trace self.new ≡ Self.trace self.old }
        ensures capacity { Self.spare self.new ≡ Self.spare self.old }
        ensures changed { packages_changed self.old self.new }
        ensures added { OnOk result (AddsPackage (packages self.old) (packages self.new)
            name.now version.now bytes.now) }
        ensures whole { AddsAtMost (packages self.old) (packages self.new)
            name.now version.now bytes.now }
        ensures cause { HasCauseOf HostError.Failed
            (Self.faults self.old) (Self.faults self.new) result };

    ghost still_still: { (a b c : Self) → Self.still a b → Self.still b c → Self.still a c };

    ghost still_packages: { (a b : Self) → Self.still a b → packages a ≡ packages b };

    ghost still_changed: { (a b : Self) → Self.still a b → packages_changed a b };

    ghost changed_changed: { (a b c : Self) → packages_changed a b → packages_changed b c
        → packages_changed a c };
}
