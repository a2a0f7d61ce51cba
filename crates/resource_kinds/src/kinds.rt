//! The kinds of resources, over a host.
ghost use Rattle.std.specs.Prelude.{◌≡◌, []};

use crate::entry::{Entry, SetAnswer, TestAnswer};
use crate::keeping::{keep_set, keep_test};
use crate::machine::Machine;
use crate::resources::Resources;
use crate::setting::set;
use crate::testing::test;
use dsc_document::Document;
use dsc_outside::{Host, HostError};
use mof_values::Memory;
use std::alloc::Global;

/// The resources of the machine that a host is; it owns the host, and keeps an entry of each call.
#[derive(Drop)]
pub struct Kinds<H: Host> {
    alloc: Global,
    host: H,
    calls: Vec<Entry>,
}

impl<H: Host> Kinds<H> {
    ghost use Rattle.resource_kinds.specs.Kinds.{calls_of, host_of};

    pub fn new(alloc: Global, host: H) -> Kinds<H>
        ensures calls { calls_of result ≡ [] }
        ensures host { host_of result ≡ host }
    {
        Kinds {
            alloc,
            host,
            calls: Vec::new(alloc),
        }
    }

    pub fn host(&self) -> &H
        ensures { result.now ≡ host_of self.now }
    {
        &self.host
    }
}

impl<H: Host + Drop> Kinds<H> {
    ghost use Rattle.resource_kinds.specs.Kinds.{host_of};

    pub fn into_host(self) -> H
        ensures { result ≡ host_of self }
    {
        self.host
    }
}

impl<H: Host> Resources for Kinds<H> {
    ghost use Rattle.std.specs.Prelude.{◌≡◌, ◌-◌, ◌≤◌, vec_capacity, vec_len, OnOk};
    ghost use Rattle.std.proofs.Common.{refl, subst, sym, Option};
    ghost use Rattle.dsc_outside.specs.Host.{HostState};
    ghost use Rattle.resource_kinds.specs.Kinds.{calls_of, host_of, spare_of};
    ghost use Rattle.resource_kinds.specs.True.{TellsEntry};

    ghost trace = { calls_of };

    ghost spare = { spare_of };

    ghost faults = { λ k. H.faults (host_of k) };

    ghost does = { λ a document e b. TellsEntry (H.shown (host_of a)) document e
        (H.shown (host_of b)) };

    ghost still = { λ a b. H.shown (host_of a) ≡ H.shown (host_of b) };

    ghost stays = { λ a. refl };

    ghost still_does = { λ a b c document e same step.
        subst (λ (t : Option HostState). TellsEntry t document e (H.shown (host_of c)))
        (sym same) step };

    fn reserve(&mut self, entries: u32) -> Result<(), Memory>
        ensures capacity { OnOk result (entries ≤ spare_of self.new) }
        ensures trace { calls_of self.new ≡ calls_of self.old }
        ensures faults { H.faults (host_of self.new) ≡ H.faults (host_of self.old) }
        ensures still { H.shown (host_of self.old) ≡ H.shown (host_of self.new) }
        ensures host { host_of self.new ≡ host_of self.old }
    {
        self.calls.reserve(entries as usize)?;
        Ok(())
    }

    fn test(&mut self, document: &Document, place: u32) -> TestAnswer {
        let resource = &document.resources.as_slice()[place as usize];
        let answer = test(self.alloc, &mut self.host, resource);
        keep_test(&mut self.calls, place, answer)
    }

    fn set(&mut self, document: &Document, place: u32) -> SetAnswer {
        let resource = &document.resources.as_slice()[place as usize];
        let answer = set(self.alloc, &mut self.host, resource);
        keep_set(&mut self.calls, place, answer)
    }

    fn calls(&self) -> &[Entry] {
        &self.calls
    }
}

impl<H: Host> Machine for Kinds<H> {
    ghost use Rattle.std.specs.Prelude.{◌≡◌, OnOk};
    ghost use Rattle.dsc_outside.specs.Causes.{HasCauseOf};
    ghost use Rattle.dsc_outside.specs.Changes.{PutsPackage};
    ghost use Rattle.resource_kinds.specs.PackageSteps.{changed_again, unchanged};
    ghost use Rattle.std.proofs.Common.{◌∙◌, ap};
    ghost use Rattle.resource_kinds.specs.Kinds.{calls_of, host_of, spare_of};
    ghost use Rattle.resource_kinds.specs.Packages.{AddsAtMost, AddsPackage, ChangesPackages, TellsPackage, packages_of};

    ghost packages = { λ k. packages_of (H.shown (host_of k)) };

    ghost packages_changed = { λ a b.
        ChangesPackages (H.shown (host_of a)) (H.shown (host_of b)) };

    ghost still_still = { λ a b c first second. first ∙ second };

    ghost still_packages = { λ a b same. ap packages_of same };

    ghost still_changed = { λ a b same. unchanged (H.shown (host_of a))
        (H.shown (host_of b)) same };

    ghost changed_changed = { λ a b c first second.
        changed_again (H.shown (host_of a)) (H.shown (host_of b))
        (H.shown (host_of c)) first second };

    fn package_has(&mut self, name: &str, version: &str) -> Result<bool, HostError>
        ensures trace { calls_of self.new ≡ calls_of self.old }
        ensures capacity { spare_of self.new ≡ spare_of self.old }
        ensures still { H.shown (host_of self.old) ≡ H.shown (host_of self.new) }
        ensures same { packages_of (H.shown (host_of self.new)) ≡
            packages_of (H.shown (host_of self.old)) }
        ensures answer { TellsPackage (packages_of (H.shown (host_of self.old)))
            name.now version.now result }
        ensures cause { HasCauseOf HostError.Failed
            (H.faults (host_of self.old)) (H.faults (host_of self.new)) result }
    {
        self.host.package_has(name, version)
    }

    fn package_put(&mut self, name: &str, version: &str, bytes: &[u8]) -> Result<(), HostError>
        ensures trace { calls_of self.new ≡ calls_of self.old }
        ensures capacity { spare_of self.new ≡ spare_of self.old }
        ensures changed { ChangesPackages (H.shown (host_of self.old))
            (H.shown (host_of self.new)) }
        ensures added { OnOk result (AddsPackage (packages_of (H.shown (host_of self.old)))
            (packages_of (H.shown (host_of self.new))) name.now version.now bytes.now) }
        ensures whole { AddsAtMost (packages_of (H.shown (host_of self.old)))
            (packages_of (H.shown (host_of self.new))) name.now version.now bytes.now }
        ensures change { PutsPackage name.now version.now bytes.now
            (H.shown (host_of self.old)) (H.shown (host_of self.new)) result }
        ensures cause { HasCauseOf HostError.Failed
            (H.faults (host_of self.old)) (H.faults (host_of self.new)) result }
    {
        self.host.package_put(name, version, bytes)
    }
}
