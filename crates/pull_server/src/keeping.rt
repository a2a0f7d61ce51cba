//! Registrations and reports are kept.
ghost use Rattle.std.specs.Prelude.{◌≡◌, ◌≢◌, ◌≤◌, IfOk, Some, length};
ghost use Rattle.dsc_terms.specs.Counts.{Rose};
ghost use Rattle.pull_messages.specs.declared.registration.Registration.{Registration as RegistrationTerm};
ghost use Rattle.pull_store.specs.declared.change.Change.TheVariants as changes;
ghost use Rattle.pull_store.specs.declared.change.Refusal.TheVariants.{Unknown};
ghost use Rattle.pull_store.specs.Rows.{refusal};
ghost use Rattle.pull_store.specs.Sound.{IsKeepable, most_bytes};
ghost use Rattle.pull_store.specs.Store.{Changed, IsReady};
ghost use Rattle.pull_server.specs.Keeping.{Keeps, Tells};

use crate::replies::plain;
use dsc_outside::Disk;
use http_frames::Reply;
use mof_values::Memory;
use pull_messages::Registration;
use pull_store::{PullError, PullStore};
use std::alloc::Global;

/// Registers an agent, and says what came of it.
pub fn keep_registration<D: Disk>(
    alloc: Global,
    store: &mut PullStore,
    disk: &mut D,
    agent: u128,
    registration: Registration,
) -> Result<Reply, Memory>
    requires ready { IsReady D.Disk disk.old store.old }
    requires size { IsKeepable registration }
    ensures { Keeps D.Disk store.old (changes.Register agent registration) 204
        disk.old result store.new disk.new }
{
    let done = store.register(disk, agent, registration);
    reply_to(alloc, done, 204)
}

/// Keeps a report of an agent that has a row, and says what came of it.
pub fn keep_report<D: Disk>(
    alloc: Global,
    store: &mut PullStore,
    disk: &mut D,
    agent: u128,
    job: u128,
    body: Vec<u8>,
) -> Result<Reply, Memory>
    requires ready { IsReady D.Disk disk.old store.old }
    requires size { length body.items ≤ most_bytes }
    requires row { refusal (changes.Report agent job body.items) store.old.rows ≢ Some Unknown }
    ensures { Keeps D.Disk store.old (changes.Report agent job body.items) 200
        disk.old result store.new disk.new }
{
    let done = store.put_report(disk, agent, job, body);
    reply_to(alloc, done, 200)
}

// What came of a change, which was done under this code.
fn reply_to(alloc: Global, done: Result<(), PullError>, code: u16) -> Result<Reply, Memory>
    ensures { Tells done code result }
{
    match done {
        Ok(()) => Ok(plain(alloc, code)),
        Err(PullError::Spent) => Ok(plain(alloc, 500)),
        Err(PullError::Disk) => Ok(plain(alloc, 500)),
        Err(PullError::Agents) => Ok(plain(alloc, 503)),
        Err(PullError::Full { .. }) => Ok(plain(alloc, 507)),
        Err(PullError::NoAgent) => Ok(plain(alloc, 404)),
        Err(PullError::NotAStore { .. }) => Ok(plain(alloc, 500)),
        Err(PullError::Memory) => Err(Memory),
    }
}
