//! The store of a pull server with its fleet, as a service.
ghost use Rattle.std.specs.Prelude.{◌≡◌, ◌⊎◌, ◌≤◌, true, Some, IfOk, IfErr, length};
ghost use Rattle.dsc_outside.specs.Disk.{From};
ghost use Rattle.gate_log.specs.Log.{AtAnyMoment};
ghost use Rattle.pull_outside.specs.Shelf.{Contents};
ghost use Rattle.pull_store.specs.Sound.{most_bytes};
ghost use Rattle.pull_store.specs.Stands.{KeepsRows};
ghost use Rattle.pull_store.specs.Store.{IsOpened, IsReady, Unopened, is_spent};
ghost use Rattle.pull_server.specs.Answers.{AnyFaultRose, IsCrowded, IsOverfull, Serves};
ghost use Rattle.fleet_view.specs.FleetReplies.{FleetReplies, IsCounted};

use crate::fleet::Fleet;
use crate::news::{news_of, settle};
use crate::replies::fleet_reply;
use dsc_outside::Disk;
use http_frames::{Reply, Request};
use mof_values::Memory;
use pull_messages::fleet_target;
use pull_outside::Shelf;
use pull_server::answer;
use pull_serving::Answerer;
use pull_store::{PullError, PullStore, open_pull};
use std::alloc::Global;
use std::marker::Model;

/// A pull server's store, and the fleet of its rows.
#[derive(Drop)]
pub struct FleetStore {
    store: PullStore,
    fleet: Fleet,
}

impl Model for FleetStore {
    ghost use Rattle.std.specs.Prelude.{◌≡◌};
    ghost use Rattle.fleet_view.specs.Counting.{counts_of};
    ghost use Rattle.fleet_view.specs.FleetReplies.{FleetStoreTerm};
    ghost use Rattle.fleet_view.specs.Members.{classes_in, members_of};

    ghost Value = { FleetStoreTerm };

    ghost view = { λ s. record { store = s.store; counts = counts_of (classes_in s.fleet.members) } };

    ghost invariant = { λ s. s.fleet.members ≡ members_of s.store.rows };
}

/// Opens the store of a disk, as `open_pull` does, and reads the last report of each agent.
pub fn open_fleet<D: Disk>(alloc: Global, disk: &mut D) -> Result<FleetStore, PullError>
    ensures opened { IfOk result (λ service. IsOpened D.Disk disk.old disk.new service.store) }
    ensures counted { IfOk result IsCounted }
    ensures cause { IfErr result (Unopened D.Disk disk.old disk.new) }
    ensures any_moment { AtAnyMoment D.Disk disk.old disk.new (From KeepsRows (D.images disk.old)) }
    ensures count { D.faults disk.old ≤ D.faults disk.new }
{
    let store = open_pull(alloc, disk)?;
    let fleet = Fleet::of(alloc, store.rows())?;
    Ok(FleetStore { store, fleet })
}

/// Answers a request: one of the fleet's two targets by its rows, and any other as the pull server does.
///
/// After it the numbers of the fleet are those of the rows as they are then. Memory for an agent more is taken, and what a report says
/// is read, before the request is answered.
pub fn answer_fleet<D: Disk, S: Shelf>(
    alloc: Global,
    service: &mut FleetStore,
    disk: &mut D,
    shelf: &mut S,
    request: &Request,
) -> Result<Reply, Memory>
    requires ready { IsReady D.Disk disk.old service.old.store }
    requires size { length request.now.body ≤ most_bytes }
    ensures reply { IfOk result (λ reply. (contents : Contents) → S.holds shelf.old ≡ Some contents
        → FleetReplies service.old.store contents request.now
        (AnyFaultRose D.Disk S.Shelf disk.old disk.new shelf.old shelf.new)
        reply service.new.store.rows) }
    ensures counted { IsCounted service.new }
    ensures cause { IfOk result (λ reply. reply.code ≡ 500
        → AnyFaultRose D.Disk S.Shelf disk.old disk.new shelf.old shelf.new
        ⊎ (is_spent service.old.store ≡ true)) }
    ensures crowded { IfOk result (λ reply. reply.code ≡ 503
        → IsCrowded service.old.store request.now) }
    ensures overfull { IfOk result (λ reply. reply.code ≡ 507
        → IsOverfull service.old.store request.now) }
    ensures serves { Serves D.Disk request.now (S.holds shelf.old)
        service.old.store disk.old result service.new.store disk.new }
    ensures shelf { S.holds shelf.new ≡ S.holds shelf.old }
    ensures shelf_count { S.faults shelf.old ≤ S.faults shelf.new }
{
    let (store, fleet) = (&service.store, &service.fleet);
    if let Some(target) = fleet_target(alloc, request.target.as_slice())? {
        return fleet_reply(alloc, store, fleet, request, target);
    }
    let news = news_of(alloc, &service.store, request)?;
    service.fleet.reserve()?;
    let result = answer(alloc, &mut service.store, disk, shelf, request);
    settle(
        &mut service.fleet,
        &service.store,
        news,
        request.body.as_slice(),
    );
    result
}

impl FleetStore {
    /// Whether a call of the store answered `Disk`.
    pub fn is_spent(&self) -> bool
        ensures { result ≡ is_spent self.now.store }
    {
        self.store.is_spent()
    }
}

impl Answerer for FleetStore {
    ghost use Rattle.fleet_view.specs.FleetReplies.{FleetReplies};

    ghost store = { λ s. s.store };

    /// The fleet's own two targets, and the answer table for any other.
    ghost replies = { FleetReplies };

    fn open<D: Disk>(alloc: Global, disk: &mut D) -> Result<Self, PullError> {
        open_fleet(alloc, disk)
    }

    fn is_spent(&self) -> bool {
        self.is_spent()
    }

    fn answer<D: Disk, S: Shelf>(
        &mut self,
        alloc: Global,
        disk: &mut D,
        shelf: &mut S,
        request: &Request,
    ) -> Result<Reply, Memory> {
        answer_fleet(alloc, self, disk, shelf, request)
    }
}
