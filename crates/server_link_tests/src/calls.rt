//! Calls of a node over a link to a server in memory, and what they answer as texts.
use dsc_outside::{Link, Peer};
use memory_outside::MemoryDisk;
use meta_config::Server;
use mof_values::{Bytes, Items, Memory, Text};
use pull_client::{PeerError, ask, fetch, message_of, register};
use pull_messages::ReportMessage;
use pull_outside::{Configuration, MemoryShelf, ShelfContents};
use pull_serving::ServerLink;
use pull_store::{PullError, open_pull};
use report_log::{Outcome, PartMark, Report, is_in_size};
use std::alloc::{AllocError, Global};

const AGENT: u128 = 0x00112233_4455_6677_8899_aabb_ccdd_eeff;

/// A call of a node, with the digest of the content that it holds, where it asks for more.
#[derive(Clone, Copy)]
pub enum Call {
    Register,
    Ask([u8; 32]),
    Fetch(&'static str),
    Report,
}

fn text(alloc: Global, text: &str) -> Result<Text, AllocError> {
    Ok(Text::of(text.chars().collect(alloc)?))
}

fn bytes(alloc: Global, bytes: &[u8]) -> Result<Bytes, AllocError> {
    Ok(Bytes::of(bytes.to_vec(alloc)?))
}

fn one_name(alloc: Global) -> Result<Vec<Text>, AllocError> {
    let mut names = Vec::new(alloc);
    names.push(text(alloc, "Web")?)?;
    Ok(names)
}

/// A shelf on which the configuration Web has this content, with the key `k0`.
pub fn shelf(alloc: Global, content: &[u8]) -> Result<MemoryShelf, AllocError> {
    let mut configurations = Vec::new(alloc);
    configurations.push(Configuration {
        name: bytes(alloc, b"Web")?,
        content: bytes(alloc, content)?,
    })?;
    let mut keys = Vec::new(alloc);
    keys.push(bytes(alloc, b"k0")?)?;
    let contents = ShelfContents {
        configurations: Items::of(configurations),
        packages: Items::of(Vec::new(alloc)),
        keys: Items::of(keys),
    };
    Ok(MemoryShelf::new(contents, Vec::new(alloc)))
}

/// A link to a server of a new store, whose shelf has this content.
pub fn new_link(
    alloc: Global,
    content: &[u8],
) -> Result<ServerLink<MemoryDisk, MemoryShelf>, PullError> {
    let mut disk = MemoryDisk::new(Vec::new(alloc), Vec::new(alloc))?;
    let shelf = shelf(alloc, content)?;
    let store = open_pull(alloc, &mut disk)?;
    Ok(ServerLink::new(alloc, store, disk, shelf))
}

fn server(alloc: Global) -> Result<Server, AllocError> {
    let host = text(alloc, "pull.example")?;
    Ok(Server {
        https: false,
        peer: Peer { host, port: 80 },
        prefix: text(alloc, "/PSDSCPullServer.svc")?,
        key: text(alloc, "k0")?,
    })
}

/// What the call answers over the link, as a text.
pub fn outcome<L: Link>(alloc: Global, link: &mut L, call: Call) -> Result<String, PeerError> {
    let server = server(alloc)?;
    match call {
        Call::Register => registered(alloc, link, &server),
        Call::Ask(digest) => asked(alloc, link, &server, digest),
        Call::Fetch(name) => fetched(alloc, link, &server, name),
        Call::Report => reported(alloc, link, &server),
    }
}

fn done(alloc: Global, outcome: Result<(), PeerError>) -> Result<String, PeerError> {
    outcome?;
    Ok(String::from_str(alloc, "done")?)
}

fn registered<L: Link>(alloc: Global, link: &mut L, server: &Server) -> Result<String, PeerError> {
    let node_name = text(alloc, "n")?;
    let names = one_name(alloc)?;
    let outcome = register(
        alloc,
        link,
        server,
        AGENT,
        &node_name,
        &names,
        1_700_000_000,
    );
    done(alloc, outcome)
}

fn asked<L: Link>(
    alloc: Global,
    link: &mut L,
    server: &Server,
    digest: [u8; 32],
) -> Result<String, PeerError> {
    let name = text(alloc, "Web")?;
    let mut held = Vec::new(alloc);
    held.push(PartMark { name, digest })?;
    let names = one_name(alloc)?;
    let fetches = ask(alloc, link, server, AGENT, &held, &names)?;
    Ok(format!(in alloc; "{:?}", fetches.as_slice())?)
}

fn fetched<L: Link>(
    alloc: Global,
    link: &mut L,
    server: &Server,
    name: &str,
) -> Result<String, PeerError> {
    let asked = text(alloc, name)?;
    let part = fetch(alloc, link, server, AGENT, &asked)?;
    content(alloc, part.bytes.as_slice())
}

fn content(alloc: Global, bytes: &[u8]) -> Result<String, PeerError> {
    match str::from_utf8(bytes) {
        Ok(text) => Ok(String::from_str(alloc, text)?),
        Err(_) => Ok(format!(in alloc; "{} bytes", bytes.len())?),
    }
}

fn reported<L: Link>(alloc: Global, link: &mut L, server: &Server) -> Result<String, PeerError> {
    let message = message(alloc)?;
    done(
        alloc,
        pull_client::report(alloc, link, server, AGENT, &message),
    )
}

fn message(alloc: Global) -> Result<ReportMessage, Memory> {
    let report = Report {
        job: 7,
        initial: true,
        pull: true,
        start: 0,
        end: 253_402_207_200,
        version: text(alloc, "1.0")?,
        outcome: Outcome::Success,
        total: 9,
        missed: 0,
        listed: Items::of(Vec::new(alloc)),
        parts: Items::of(Vec::new(alloc)),
    };
    if is_in_size(&report) {
        message_of(alloc, &report, AGENT)
    } else {
        Err(Memory)
    }
}
