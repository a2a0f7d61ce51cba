//! The server of a rehearsal between two starts.
ghost use Rattle.std.specs.Prelude.{◌≡◌, ◌≤◌, IfOk, length};
ghost use Rattle.pull_outside.specs.ReliableShelf.{with_configuration, with_key};
ghost use Rattle.rehearsal.specs.Living.{IsReadyServer};
ghost use Rattle.rehearsal.specs.World.{HasLasted, IsNewServer, link_to};
ghost use Rattle.rehearsal.specs.declared.limits.TheConstants.{MAX_SCRIPT};

use crate::lasting::lasted;
use memory_outside::ReliableDisk;
use mof_values::{Bytes, Memory};
use pull_outside::ReliableShelf;
use pull_serving::ServerLink;
use pull_store::{PullError, PullStore, open_pull};
use std::alloc::Global;

/// A pull server: its store, the disk that the store is of, and its shelf.
#[derive(Drop)]
pub struct Server {
    pub store: PullStore,
    pub disk: ReliableDisk,
    pub shelf: ReliableShelf,
}

/// A server that knows no agent, with nothing on its shelf.
pub fn new_server(alloc: Global) -> Result<Server, Memory>
    ensures new { IfOk result IsNewServer }
    ensures ready { IfOk result IsReadyServer }
{
    let mut disk = ReliableDisk::new(Vec::new(alloc))?;
    let opened = open_pull(alloc, &mut disk);
    lasted(&disk)?;
    match opened {
        Ok(store) => Ok(Server {
            store,
            disk,
            shelf: ReliableShelf::new(alloc),
        }),
        Err(PullError::Memory) => Err(Memory),
        Err(
            PullError::Spent
            | PullError::Agents
            | PullError::NoAgent
            | PullError::Full { need: _, room: _ }
            | PullError::Disk
            | PullError::NotAStore { at: _ },
        ) => unreachable!(),
    }
}

/// The link to the server.
pub fn link_to(alloc: Global, server: Server) -> ServerLink<ReliableDisk, ReliableShelf>
    requires { IsReadyServer server }
    ensures { result ≡ link_to server }
{
    ServerLink::new(alloc, server.store, server.disk, server.shelf)
}

/// The server of the link; out of memory, where a call of its disk was.
pub fn server_of(link: ServerLink<ReliableDisk, ReliableShelf>) -> Result<Server, Memory>
    ensures server { IfOk result (λ server.
        server ≡ record { store = link.store; disk = link.disk; shelf = link.shelf }) }
    ensures ready { IfOk result IsReadyServer }
    ensures lasted { IfOk result (λ server. HasLasted link.disk) }
{
    let (store, disk, shelf) = link.into_parts();
    lasted(&disk)?;
    Ok(Server { store, disk, shelf })
}

impl Server {
    /// Puts this content on the shelf as the configuration of that name.
    pub fn put_configuration(
        self,
        alloc: Global,
        name: &str,
        content: &[u8],
    ) -> Result<Server, Memory>
        requires { length content.now ≤ MAX_SCRIPT }
        ensures { IfOk result (λ new.
            new ≡ record self { shelf = with_configuration name.now content.now self.shelf }) }
    {
        let mut server = self;
        let name = Bytes::of(name.as_bytes().to_vec(alloc)?);
        let content = Bytes::of(content.to_vec(alloc)?);
        server.shelf.put_configuration(name, content)?;
        Ok(server)
    }

    /// Adds a key behind the others on the shelf.
    pub fn add_key(self, alloc: Global, key: &[u8]) -> Result<Server, Memory>
        requires { length key.now ≤ MAX_SCRIPT }
        ensures { IfOk result (λ new. new ≡ record self { shelf = with_key key.now self.shelf }) }
    {
        let mut server = self;
        let key = Bytes::of(key.to_vec(alloc)?);
        server.shelf.add_key(key)?;
        Ok(server)
    }
}
