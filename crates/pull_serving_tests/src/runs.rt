//! Runs of a server, and what is shown of them.
use memory_outside::{MemoryDisk, MemorySink};
use mof_values::{Bytes, Items, Memory};
use pull_outside::{ClosedConn, Configuration, MemoryConn, MemoryDoor, MemoryShelf, ShelfContents};
use pull_serving::serve;
use std::alloc::{AllocError, Global};

/// A run of a server.
#[derive(Clone, Copy)]
pub struct Run<'a> {
    /// The connections after which it is to end; without a number no argument is given.
    pub connections: &'a str,

    /// A word for each peer.
    pub peers: &'a str,

    /// The bytes of the store.
    pub store: &'a str,

    /// The object of which a call fails, and the number of the call.
    pub object: &'a str,
    pub call: u64,
}

// A registration that is signed under k0.
const PUT: &str =
    "PUT /PSDSCPullServer.svc/Nodes(AgentId='00000000-0000-0000-0000-000000000001') HTTP/1.1\r\nx-ms-date: 2026-01-02T03:04:05.0000000Z\r\nAuthorization: Shared RvBfGSNUPNv6a2OmXDp/fJxw3eDQYqgnoGiv/WjZHSU=\r\nContent-Length: 180\r\n\r\n{\"AgentInformation\":{\"LCMVersion\":\"2.0\",\"NodeName\":\"n\",\"IPAddress\":\"\"},\"ConfigurationNames\":[\"Web\"],\"RegistrationInformation\":{\"RegistrationMessageType\":\"ConfigurationRepository\"}}";

const REPORT: &str =
    "POST /PSDSCPullServer.svc/Nodes(AgentId='00000000-0000-0000-0000-000000000001')/SendReport HTTP/1.1\r\nHost: s\r\nContent-Length: 48\r\n\r\n{\"JobId\":\"00000000-0000-0000-0000-000000000011\"}";

const FETCH: &str =
    "GET /PSDSCPullServer.svc/Nodes(AgentId='00000000-0000-0000-0000-000000000001')/Configurations(ConfigurationName='Web')/ConfigurationContent HTTP/1.1\r\nHost: s\r\n\r\n";

// A peer: what it sends, how many bytes a call of its connection moves at most, and the calls that are to fail.
#[derive(Clone, Copy)]
struct Peer {
    sends: &'static str,
    most: usize,
    failing: &'static [u64],
}

impl Peer {
    fn whole(sends: &'static str) -> Peer {
        Peer {
            sends,
            most: 8192,
            failing: &[],
        }
    }

    fn slow(sends: &'static str) -> Peer {
        Peer {
            sends,
            most: 1,
            failing: &[],
        }
    }

    // Any other word is that of one that sends nothing.
    fn named(word: &str) -> Peer {
        match word {
            "put" => Peer::whole(PUT),
            "report" => Peer::whole(REPORT),
            "fetch" => Peer::whole(FETCH),
            "slow-put" => Peer::slow(PUT),
            "slow-report" => Peer::slow(REPORT),
            "slow-fetch" => Peer::slow(FETCH),
            "front" => Peer::whole("GET /"),
            "no-request" => Peer::whole("\r\n\u{7f}"),
            "unread" => Peer {
                sends: FETCH,
                most: 8192,
                failing: &[0],
            },
            "unwritten" => Peer {
                sends: FETCH,
                most: 10,
                failing: &[18],
            },
            _ => Peer::whole(""),
        }
    }
}

// The arguments of the server's command.
fn words_of(alloc: Global, connections: &str) -> Result<Vec<String>, AllocError> {
    let mut texts = Vec::new(alloc);
    if connections.is_empty() {
        return Ok(texts);
    }
    for word in "--store s --shelf f --listen l --connections".split(' ') {
        texts.push(String::from_str(alloc, word)?)?;
    }
    texts.push(String::from_str(alloc, connections)?)?;
    Ok(texts)
}

fn bytes(alloc: Global, text: &str) -> Result<Bytes, AllocError> {
    Ok(Bytes::of(text.as_bytes().to_vec(alloc)?))
}

// The content `abc` of the configuration Web.
fn configurations(alloc: Global) -> Result<Vec<Configuration>, AllocError> {
    let mut items = Vec::new(alloc);
    items.push(Configuration {
        name: bytes(alloc, "Web")?,
        content: bytes(alloc, "abc")?,
    })?;
    Ok(items)
}

// The key `k0`.
fn keys(alloc: Global) -> Result<Vec<Bytes>, AllocError> {
    let mut keys = Vec::new(alloc);
    keys.push(bytes(alloc, "k0")?)?;
    Ok(keys)
}

fn shelf(alloc: Global) -> Result<MemoryShelf, AllocError> {
    let contents = ShelfContents {
        configurations: Items::of(configurations(alloc)?),
        packages: Items::of(Vec::new(alloc)),
        keys: Items::of(keys(alloc)?),
    };
    Ok(MemoryShelf::new(contents, Vec::new(alloc)))
}

fn connection(alloc: Global, peer: Peer) -> Result<MemoryConn, AllocError> {
    let sends = peer.sends.as_bytes().to_vec(alloc)?;
    let failing = peer.failing.to_vec(alloc)?;
    Ok(MemoryConn::new(alloc, sends, peer.most.max(1), failing))
}

fn connections(alloc: Global, peers: &str) -> Result<Vec<MemoryConn>, AllocError> {
    let mut coming = Vec::new(alloc);
    if peers.is_empty() {
        return Ok(coming);
    }
    for word in peers.split(' ') {
        coming.push(connection(alloc, Peer::named(word))?)?;
    }
    Ok(coming)
}

// The calls of this object that are to fail.
fn failing(alloc: Global, run: &Run<'_>, object: &str) -> Result<Vec<u64>, AllocError> {
    let mut calls = Vec::new(alloc);
    if run.object == object {
        calls.push(run.call)?;
    }
    Ok(calls)
}

fn disk(alloc: Global, run: &Run<'_>) -> Result<MemoryDisk, Memory> {
    let failing = failing(alloc, run, "disk")?;
    MemoryDisk::new(run.store.as_bytes().to_vec(alloc)?, failing)
}

fn door(alloc: Global, run: &Run<'_>) -> Result<MemoryDoor, Memory> {
    let failing = failing(alloc, run, "door")?;
    MemoryDoor::new(alloc, connections(alloc, run.peers)?, failing)
}

/// The number of the status, what was printed, and for each connection that was handed back the first line that was written to it;
/// divided by `|`.
pub fn played(alloc: Global, run: &Run<'_>) -> Result<Vec<u8>, Memory> {
    let words = words_of(alloc, run.connections)?;
    let mut disk = disk(alloc, run)?;
    let mut shelf = shelf(alloc)?;
    let mut door = door(alloc, run)?;
    let mut output = MemorySink::new(alloc, failing(alloc, run, "output")?);
    let status = serve(alloc, &words, &mut door, &mut shelf, &mut disk, &mut output);
    Ok(shown(alloc, status.number(), output.bytes(), door.back())?)
}

fn shown(
    alloc: Global,
    number: u8,
    printed: &[u8],
    back: &[ClosedConn],
) -> Result<Vec<u8>, AllocError> {
    let mut text = Vec::new(alloc);
    let number = format!(in alloc; "{number}|")?;
    text.extend_from_slice(number.as_bytes())?;
    text.extend_from_slice(printed)?;
    for closed in back {
        text.push(b'|')?;
        text.extend_from_slice(first_line(closed.conn.taken()))?;
    }
    Ok(text)
}

fn first_line(taken: &[u8]) -> &[u8] {
    match taken.iter().position(|byte| *byte == b'\r') {
        Some(end) => &taken[..end],
        None => taken,
    }
}
