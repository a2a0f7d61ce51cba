//! A service over a store: what answers the requests of connections.
ghost use Rattle.std.specs.Prelude.{◌≡◌, ◌⊎◌, ◌≤◌, true, Some, IfOk, IfErr, List, length};
ghost use Rattle.dsc_outside.specs.Disk.{From};
ghost use Rattle.gate_log.specs.Log.{AtAnyMoment};
ghost use Rattle.http_frames.specs.declared.message.Reply.{Reply as ReplyTerm};
ghost use Rattle.http_frames.specs.declared.message.Request.{Request as RequestTerm};
ghost use Rattle.pull_outside.specs.Shelf.{Contents};
ghost use Rattle.pull_store.specs.declared.row.Row.{Row};
ghost use Rattle.pull_store.specs.Sound.{most_bytes};
ghost use Rattle.pull_store.specs.Stands.{KeepsRows};
ghost use Rattle.pull_store.specs.Store.{IsOpened, IsReady, StoreTerm, Unopened, is_spent};
ghost use Rattle.pull_server.specs.Answers.{AnyFaultRose, IsCrowded, IsOverfull, Serves};

use dsc_outside::Disk;
use http_frames::{Reply, Request};
use mof_values::Memory;
use pull_outside::Shelf;
use pull_store::{PullError, PullStore, open_pull};
use std::alloc::Global;

/// What answers the requests of connections, over the rows of a store.
///
/// It may keep more than the store. What an answer leaves of the store and of the disk is as of `pull_server`; which replies
/// there are, each service says of itself.
pub trait Answerer: Sized {
    /// The store.
    ghost store: { Self → StoreTerm };

    /// The reply to a request over the store and what the shelf holds, and the rows after it, where a count of faults rose in
    /// the call or did not.
    ghost replies: { StoreTerm → Contents → RequestTerm → Type 0 → ReplyTerm → List Row → Type 0 };

    /// Opens the store of a disk, as `open_pull` does.
    fn open<D: Disk>(alloc: Global, disk: &mut D) -> Result<Self, PullError>
        ensures opened { IfOk result (λ service.
            IsOpened D.Disk disk.old disk.new (store service)) }
        ensures cause { IfErr result (Unopened D.Disk disk.old disk.new) }
        ensures any_moment { AtAnyMoment D.Disk disk.old disk.new
            (From KeepsRows (D.images disk.old)) }
        ensures count { D.faults disk.old ≤ D.faults disk.new };

    /// Whether a call of the store answered `Disk`.
    fn is_spent(&self) -> bool
        ensures { result ≡ is_spent (store self.now) };

    /// Answers a request. The body has at most 131,072 bytes.
    fn answer<D: Disk, S: Shelf>(
        &mut self,
        alloc: Global,
        disk: &mut D,
        shelf: &mut S,
        request: &Request,
    ) -> Result<Reply, Memory>
        requires ready { IsReady D.Disk disk.old (store self.old) }
        requires size { length request.now.body ≤ most_bytes }
        ensures reply { IfOk result (λ reply. (contents : Contents)
            → S.holds shelf.old ≡ Some contents
            → replies (store self.old) contents request.now
            (AnyFaultRose D.Disk S.Shelf disk.old disk.new shelf.old shelf.new)
            reply (store self.new).rows) }
        ensures cause { IfOk result (λ reply. reply.code ≡ 500
            → AnyFaultRose D.Disk S.Shelf disk.old disk.new shelf.old shelf.new
            ⊎ (is_spent (store self.old) ≡ true)) }
        ensures crowded { IfOk result (λ reply. reply.code ≡ 503
            → IsCrowded (store self.old) request.now) }
        ensures overfull { IfOk result (λ reply. reply.code ≡ 507
            → IsOverfull (store self.old) request.now) }
        ensures serves { Serves D.Disk request.now (S.holds shelf.old)
            (store self.old) disk.old result (store self.new) disk.new }
        ensures shelf { S.holds shelf.new ≡ S.holds shelf.old }
        ensures shelf_count { S.faults shelf.old ≤ S.faults shelf.new };
}

impl Answerer for PullStore {
    ghost use Rattle.pull_server.specs.Answers.{Replies};

    ghost store = { λ s. s };

    /// The answer table.
    ghost replies = { Replies };

    fn open<D: Disk>(alloc: Global, disk: &mut D) -> Result<Self, PullError> {
        open_pull(alloc, disk)
    }

    fn is_spent(&self) -> bool {
        self.is_spent()
    }

    fn answer<D: Disk, S: Shelf>(
        &mut self,
        alloc: Global,
        disk: &mut D,
        shelf: &mut S,
        request: &Request,
    ) -> Result<Reply, Memory> {
        pull_server::answer(alloc, self, disk, shelf, request)
    }
}
