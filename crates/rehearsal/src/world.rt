//! The objects of a rehearsal between two starts.
ghost use Rattle.std.specs.Prelude.{◌≡◌, ◌≤◌, IfOk, length};
ghost use Rattle.mof_values.specs.Fold.{fold_case};
ghost use Rattle.pull_outside.specs.ReliableShelf.{with_configuration, with_key};
ghost use Rattle.rehearsal.specs.Living.{IsBetween, world_of};
ghost use Rattle.rehearsal.specs.World.{IsFirst, with_shelf, with_wish};
ghost use Rattle.rehearsal.specs.declared.limits.TheConstants.{MAX_SCRIPT};

use crate::server::{Server, new_server};
use memory_outside::{HostContents, ReliableDisk, ReliableHost};
use mof_values::{Bytes, Memory};
use std::alloc::Global;

/// The objects that hold a node and its server between two starts.
#[derive(Drop)]
pub struct LiveWorld {
    /// The node's disk, of which no call was made.
    pub disk: ReliableDisk,

    pub host: ReliableHost,
    pub server: Server,

    /// How many starts there were.
    pub starts: u32,
}

impl LiveWorld {
    /// The world before the first start.
    pub fn new(alloc: Global) -> Result<LiveWorld, Memory>
        ensures first { IfOk result (λ live. IsFirst (world_of live)) }
        ensures between { IfOk result IsBetween }
    {
        Ok(LiveWorld {
            disk: ReliableDisk::new(Vec::new(alloc))?,
            host: ReliableHost::of(HostContents::empty(alloc)),
            server: new_server(alloc)?,
            starts: 0,
        })
    }

    /// Puts this content on the server's shelf as the configuration of that name.
    pub fn put_configuration(
        self,
        alloc: Global,
        name: &str,
        content: &[u8],
    ) -> Result<LiveWorld, Memory>
        requires between { IsBetween self }
        requires short { length content.now ≤ MAX_SCRIPT }
        ensures put { IfOk result (λ new. world_of new ≡
            with_shelf (with_configuration name.now content.now) (world_of self)) }
        ensures between { IfOk result IsBetween }
    {
        Ok(LiveWorld {
            disk: self.disk,
            host: self.host,
            server: self.server.put_configuration(alloc, name, content)?,
            starts: self.starts,
        })
    }

    /// Adds a key behind the others on the server's shelf.
    pub fn add_key(self, alloc: Global, key: &[u8]) -> Result<LiveWorld, Memory>
        requires between { IsBetween self }
        requires short { length key.now ≤ MAX_SCRIPT }
        ensures added { IfOk result (λ new. world_of new ≡
            with_shelf (with_key key.now) (world_of self)) }
        ensures between { IfOk result IsBetween }
    {
        Ok(LiveWorld {
            disk: self.disk,
            host: self.host,
            server: self.server.add_key(alloc, key)?,
            starts: self.starts,
        })
    }

    /// Adds the folded id to those of the resources that want a reboot.
    pub fn add_wish(self, alloc: Global, id: &str) -> Result<LiveWorld, Memory>
        requires between { IsBetween self }
        ensures added { IfOk result (λ new. world_of new ≡
            with_wish (fold_case id.now) (world_of self)) }
        ensures between { IfOk result IsBetween }
    {
        let mut contents = self.host.into_contents();
        let id = id.as_bytes().to_ascii_lowercase(alloc)?;
        contents.wanting.push(Bytes::of(id))?;
        Ok(LiveWorld {
            disk: self.disk,
            host: ReliableHost::of(contents),
            server: self.server,
            starts: self.starts,
        })
    }
}
