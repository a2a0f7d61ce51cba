//! Calls of a store.
ghost use Rattle.pull_store.specs.Store.{IsReady};

use dsc_outside::Disk;
use pull_messages::{MessageError, read_registration};
use pull_store::{PullError, PullStore};
use std::alloc::{AllocError, Global};

/// The message of a registration with this name of the node.
pub fn said(alloc: Global, name: &[u8]) -> Result<Vec<u8>, AllocError> {
    let mut message = b"{\"AgentInformation\":{\"NodeName\":\"".to_vec(alloc)?;
    message.extend_from_slice(name)?;
    message.extend_from_slice(b"\"}}")?;
    Ok(message)
}

/// Registers an agent by a message in JSON, which is no longer than the texts of a registration may be.
pub fn register<D: Disk>(
    alloc: Global,
    store: &mut PullStore,
    disk: &mut D,
    agent: u128,
    message: &[u8],
) -> Result<(), PullError>
    requires { IsReady D.Disk disk.old store.old }
    ensures { IsReady D.Disk disk.new store.new }
{
    if message.len() > 131_072 {
        return Err(PullError::NotAStore { at: 0 });
    }
    match read_registration(alloc, message) {
        Ok(registration) => store.register(disk, agent, registration),
        Err(MessageError::Memory) => Err(PullError::Memory),
        Err(_) => Err(PullError::NotAStore { at: 0 }),
    }
}

/// Puts a report of an agent.
pub fn put<D: Disk>(
    alloc: Global,
    store: &mut PullStore,
    disk: &mut D,
    agent: u128,
    job: u128,
    body: &[u8],
) -> Result<(), PullError>
    requires { IsReady D.Disk disk.old store.old }
    ensures { IsReady D.Disk disk.new store.new }
{
    if body.len() > 131_072 {
        return Err(PullError::NotAStore { at: 0 });
    }
    match body.to_vec(alloc) {
        Ok(body) => store.put_report(disk, agent, job, body),
        Err(_) => Err(PullError::Memory),
    }
}

fn register_name<D: Disk>(
    alloc: Global,
    store: &mut PullStore,
    disk: &mut D,
    agent: u128,
    name: &[u8],
) -> Result<(), PullError>
    requires { IsReady D.Disk disk.old store.old }
    ensures { IsReady D.Disk disk.new store.new }
{
    match said(alloc, name) {
        Ok(message) => register(alloc, store, disk, agent, &message),
        Err(_) => Err(PullError::Memory),
    }
}

fn forget_named<D: Disk>(
    alloc: Global,
    store: &mut PullStore,
    disk: &mut D,
    names: &[u8],
) -> Result<(), PullError>
    requires { IsReady D.Disk disk.old store.old }
    ensures { IsReady D.Disk disk.new store.new }
{
    match agents_of(alloc, names) {
        Ok(agents) => store.forget(disk, &agents),
        Err(_) => Err(PullError::Memory),
    }
}

fn agents_of(alloc: Global, names: &[u8]) -> Result<Vec<u128>, AllocError> {
    let mut agents = Vec::new(alloc);
    for name in names {
        agents.push(u128::from(*name))?;
    }
    Ok(agents)
}

/// Makes the call of a word: `RAn` registers the agent A, whose node has the name n; `PAjb` puts the body b as the report of its
/// job j; `FAB` forgets the agents A and B.
pub fn call<D: Disk>(
    alloc: Global,
    store: &mut PullStore,
    disk: &mut D,
    word: &str,
) -> Result<(), PullError>
    requires { IsReady D.Disk disk.old store.old }
    ensures { IsReady D.Disk disk.new store.new }
{
    match word.as_bytes() {
        [b'R', agent, name @ ..] => { register_name(alloc, store, disk, u128::from(*agent), name) }
        [b'P', agent, job, body @ ..] => put(
            alloc,
            store,
            disk,
            u128::from(*agent),
            u128::from(*job),
            body,
        ),
        [b'F', names @ ..] => forget_named(alloc, store, disk, names),
        _ => Err(PullError::NotAStore { at: 0 }),
    }
}

/// Makes the calls of these words, up to the first that fails.
pub fn call_all<D: Disk>(
    alloc: Global,
    store: &mut PullStore,
    disk: &mut D,
    words: &str,
) -> Result<(), PullError>
    requires { IsReady D.Disk disk.old store.old }
    ensures { IsReady D.Disk disk.new store.new }
{
    if words.is_empty() {
        return Ok(());
    }
    for word in words.split(' ') {
        call(alloc, store, disk, word)?;
    }
    Ok(())
}
