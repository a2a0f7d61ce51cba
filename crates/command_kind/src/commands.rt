//! A machine that also has commands.
ghost use Rattle.std.specs.Prelude.{◌≡◌, []};

use crate::running::{set_command, test_command};
use crate::spawner::Spawner;
use crate::tables::is_command;
use dsc_document::Document;
use dsc_outside::HostError;
use mof_values::Memory;
use resource_kinds::{Entry, Machine, Resources, SetAnswer, TestAnswer, keep_set, keep_test};
use std::alloc::Global;

/// A machine whose commands a spawner runs. It owns both, hands on to the machine what is no command, and keeps an entry of each
/// call.
#[derive(Drop)]
pub struct Commands<M: Machine, P: Spawner> {
    alloc: Global,
    machine: M,
    spawner: P,
    calls: Vec<Entry>,
}

impl<M: Machine, P: Spawner> Commands<M, P> {
    ghost use Rattle.command_kind.specs.Parts.{calls_of, machine_of, spawner_of};

    pub fn new(alloc: Global, machine: M, spawner: P) -> Commands<M, P>
        ensures calls { calls_of result ≡ [] }
        ensures machine { machine_of result ≡ machine }
        ensures spawner { spawner_of result ≡ spawner }
    {
        Commands {
            alloc,
            machine,
            spawner,
            calls: Vec::new(alloc),
        }
    }
}

impl<M: Machine + Drop, P: Spawner + Drop> Commands<M, P> {
    ghost use Rattle.command_kind.specs.Parts.{machine_of, spawner_of};

    /// The machine and the spawner.
    pub fn into_parts(self) -> (M, P)
        ensures machine { result.0 ≡ machine_of self }
        ensures spawner { result.1 ≡ spawner_of self }
    {
        (self.machine, self.spawner)
    }
}

impl<M: Machine, P: Spawner> Resources for Commands<M, P> {
    ghost use Rattle.std.specs.Prelude.{◌≡◌, ◌+◌, ◌≤◌, OnOk};
    ghost use Rattle.command_kind.specs.Parts.{calls_of, machine_of, spare_of, spawner_of};
    ghost use Rattle.command_kind.specs.Steps.{Step, Still};
    ghost use Rattle.command_kind.specs.StepLaws.{still_steps};
    ghost use Rattle.std.proofs.Common.{refl};

    ghost trace = { calls_of };

    ghost spare = { spare_of M.spare };

    ghost faults = { λ c. M.faults (machine_of c) + P.faults (spawner_of c) };

    ghost does = { Step M.Resources P.Spawner };

    ghost still = { Still M.Resources };

    ghost stays = { λ a. record { still = M.stays (machine_of a); spawner = refl } };

    ghost still_does = { still_steps _ _ M.still_does M.still_still };

    fn reserve(&mut self, entries: u32) -> Result<(), Memory> {
        self.calls.reserve(entries as usize)?;
        self.machine.reserve(entries)
    }

    fn test(&mut self, document: &Document, place: u32) -> TestAnswer {
        let instance = &document.resources.as_slice()[place as usize].instance;
        let answer = if is_command(instance) {
            test_command(self.alloc, &mut self.spawner, instance)
        } else {
            self.machine.test(document, place)
        };
        keep_test(&mut self.calls, place, answer)
    }

    fn set(&mut self, document: &Document, place: u32) -> SetAnswer {
        let instance = &document.resources.as_slice()[place as usize].instance;
        let answer = if is_command(instance) {
            set_command(self.alloc, &mut self.spawner, instance)
        } else {
            self.machine.set(document, place)
        };
        keep_set(&mut self.calls, place, answer)
    }

    fn calls(&self) -> &[Entry] {
        &self.calls
    }
}

impl<M: Machine, P: Spawner> Machine for Commands<M, P> {
    ghost use Rattle.command_kind.specs.Parts.{machine_of, spawner_of};
    ghost use Rattle.command_kind.specs.Steps.{ChangesMachine};
    ghost use Rattle.command_kind.specs.StepLaws.{still_again};
    ghost use Rattle.std.proofs.Common.{◌∙◌};

    ghost packages = { λ c. M.packages (machine_of c) };

    ghost packages_changed = { ChangesMachine M.packages_changed };

    ghost still_still = { still_again _ M.still_still };

    ghost still_packages = { λ a b same. M.still_packages (machine_of a) (machine_of b)
        same.still };

    ghost still_changed = { λ a b same. record {
      changed = M.still_changed (machine_of a) (machine_of b) same.still;
      spawner = same.spawner;
    } };

    ghost changed_changed = { λ a b c first second. record {
      changed = M.changed_changed (machine_of a) (machine_of b) (machine_of c)
          first.changed second.changed;
      spawner = second.spawner ∙ first.spawner;
    } };

    fn package_has(&mut self, name: &str, version: &str) -> Result<bool, HostError> {
        self.machine.package_has(name, version)
    }

    fn package_put(&mut self, name: &str, version: &str, bytes: &[u8]) -> Result<(), HostError> {
        self.machine.package_put(name, version, bytes)
    }
}
