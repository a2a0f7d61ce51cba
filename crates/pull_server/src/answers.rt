//! The answer to a request, by the table.
ghost use Rattle.std.specs.Prelude.{◌≡◌, ◌⊎◌, ◌≤◌, true, false, Some, IfOk, length};
ghost use Rattle.gate_log.specs.Standing.{StandsAtAnyMoment};
ghost use Rattle.pull_outside.specs.Shelf.{Contents};
ghost use Rattle.pull_store.specs.Sound.{most_bytes};
ghost use Rattle.pull_store.specs.Stands.{Stands};
ghost use Rattle.pull_store.specs.Store.{IsKept, IsReady, is_spent};
ghost use Rattle.pull_server.specs.Answers.{AnyFaultRose, IsAcknowledged, IsCrowded, IsOverfull, LeavesRows, Replies, Serves, is_done};

use crate::judging::judge;
use crate::keeping::{keep_registration, keep_report};
use crate::verdict::Verdict;
use dsc_outside::Disk;
use http_frames::{Reply, Request};
use mof_values::Memory;
use pull_outside::Shelf;
use pull_store::PullStore;
use std::alloc::Global;

/// Answers a request, by the table.
///
/// The body has at most 131,072 bytes. A registration and a report are answered 204 and 200 only once every image of the disk
/// stands for the rows after them. A crash at any moment leaves the rows before the request, or those after the change that the
/// table makes. 500 comes only where the count of faults of the disk or of the shelf rose, or where the store was spent; 503 only
/// to a registration that the rows refuse, and 507 only to a change that has no capacity. A reply that does not say that the request
/// was done leaves the rows as they were. Where it runs out of memory, or the store was spent before, store and disk are as they
/// were.
pub fn answer<D: Disk, S: Shelf>(
    alloc: Global,
    store: &mut PullStore,
    disk: &mut D,
    shelf: &mut S,
    request: &Request,
) -> Result<Reply, Memory>
    requires ready { IsReady D.Disk disk.old store.old }
    requires size { length request.now.body ≤ most_bytes }
    ensures reply { IfOk result (λ reply. (contents : Contents) → S.holds shelf.old ≡ Some contents
        → Replies store.old contents request.now
        (AnyFaultRose D.Disk S.Shelf disk.old disk.new shelf.old shelf.new)
        reply store.new.rows) }
    ensures cause { IfOk result (λ reply. reply.code ≡ 500
        → AnyFaultRose D.Disk S.Shelf disk.old disk.new shelf.old shelf.new
        ⊎ (is_spent store.old ≡ true)) }
    ensures crowded { IfOk result (λ reply. reply.code ≡ 503
        → IsCrowded store.old request.now) }
    ensures overfull { IfOk result (λ reply. reply.code ≡ 507
        → IsOverfull store.old request.now) }
    ensures serves { Serves D.Disk request.now (S.holds shelf.old)
        store.old disk.old result store.new disk.new }
    ensures shelf { S.holds shelf.new ≡ S.holds shelf.old }
    ensures shelf_count { S.faults shelf.old ≤ S.faults shelf.new }
{
    match judge(alloc, store, shelf, request)? {
        Verdict::Says(reply) => Ok(reply),
        Verdict::Register(agent, registration) => {
            keep_registration(alloc, store, disk, agent, registration)
        }
        Verdict::Report(agent, job, body) => keep_report(alloc, store, disk, agent, job, body),
    }
}
