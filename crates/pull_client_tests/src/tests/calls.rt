//! Calls over a link in memory, and what they answer as texts.
use super::made::{AGENT, Site, bytes, held, report, server, text, texts};
use dsc_outside::Exchange;
use memory_outside::MemoryLink;
use meta_config::Server;
use mof_values::Memory;
use pull_client::{PeerError, ask, fetch, fetch_module, message_of, register};
use pull_messages::ReportMessage;
use report_log::is_in_size;
use std::alloc::{AllocError, Global};

/// A call of a node.
#[derive(Clone, Copy)]
pub enum Call {
    Register,
    Ask(&'static [&'static str]),
    Fetch(&'static str),
    FetchModule,
    Report,
}

/// What is wanted: the value of a call, or its error as `Debug` writes it.
pub type Wanted = Result<&'static str, &'static str>;

/// Returns whether the call answers so where the server answers these bytes.
pub fn answers(
    alloc: Global,
    call: Call,
    site: &Site,
    answer: &[u8],
    wanted: &Result<&str, &str>,
) -> bool {
    match link(alloc, answer) {
        Ok(mut link) => answers_over(alloc, &mut link, call, site, wanted),
        Err(_) => false,
    }
}

/// Returns whether the call answers so over the link.
pub fn answers_over(
    alloc: Global,
    link: &mut MemoryLink,
    call: Call,
    site: &Site,
    wanted: &Result<&str, &str>,
) -> bool {
    match server(alloc, site) {
        Ok(server) => is_wanted(alloc, &outcome(alloc, link, &server, call), wanted),
        Err(_) => false,
    }
}

/// Returns whether the call sends these lines to the site, and no more.
pub fn sends(alloc: Global, call: Call, site: &Site, lines: &[&str]) -> bool {
    let Ok(mut link) = link(alloc, b"") else {
        return false;
    };
    match server(alloc, site) {
        Ok(server) => {
            let _outcome = outcome(alloc, &mut link, &server, call);
            is_one_exchange(link.exchanges(), &server, lines)
        }
        Err(_) => false,
    }
}

fn is_one_exchange(exchanges: &[Exchange], server: &Server, lines: &[&str]) -> bool {
    match exchanges {
        [only] => only.peer == server.peer && is_request(only.request.as_slice(), lines),
        _ => false,
    }
}

fn is_request(request: &[u8], lines: &[&str]) -> bool {
    let mut left = request;
    for line in lines {
        match left.strip_prefix(line.as_bytes()) {
            Some(rest) => left = rest,
            None => return false,
        }
    }
    left.is_empty()
}

/// A link with one answer.
pub fn link(alloc: Global, answer: &[u8]) -> Result<MemoryLink, AllocError> {
    let mut answers = Vec::new(alloc);
    answers.push(bytes(alloc, answer)?)?;
    Ok(MemoryLink::new(answers, Vec::new(alloc)))
}

fn is_wanted(
    alloc: Global,
    outcome: &Result<String, PeerError>,
    wanted: &Result<&str, &str>,
) -> bool {
    match (outcome, wanted) {
        (Ok(value), Ok(wanted)) => value.as_str() == *wanted,
        (Err(error), Err(wanted)) => is_error(alloc, error, wanted),
        _ => false,
    }
}

fn is_error(alloc: Global, error: &PeerError, wanted: &str) -> bool {
    match format!(in alloc; "{error:?}") {
        Ok(text) => text.as_str() == wanted,
        Err(_) => false,
    }
}

/// What the call answers, as a text.
pub fn outcome(
    alloc: Global,
    link: &mut MemoryLink,
    server: &Server,
    call: Call,
) -> Result<String, PeerError> {
    match call {
        Call::Register => registered(alloc, link, server),
        Call::Ask(names) => asked(alloc, link, server, names),
        Call::Fetch(name) => fetched(alloc, link, server, name),
        Call::FetchModule => module(alloc, link, server),
        Call::Report => reported(alloc, link, server),
    }
}

fn done(alloc: Global, outcome: Result<(), PeerError>) -> Result<String, PeerError> {
    outcome?;
    Ok(String::from_str(alloc, "done")?)
}

fn registered(alloc: Global, link: &mut MemoryLink, server: &Server) -> Result<String, PeerError> {
    let node_name = text(alloc, "node \"1\"\n")?;
    let names = texts(alloc, &["Web", "Caf'é"])?;
    let outcome = register(
        alloc,
        link,
        server,
        AGENT,
        &node_name,
        &names,
        1_700_000_000,
    );
    done(alloc, outcome)
}

fn asked(
    alloc: Global,
    link: &mut MemoryLink,
    server: &Server,
    names: &[&str],
) -> Result<String, PeerError> {
    let held = held(alloc)?;
    let names = texts(alloc, names)?;
    let fetches = ask(alloc, link, server, AGENT, &held, &names)?;
    Ok(format!(in alloc; "{:?}", fetches.as_slice())?)
}

fn fetched(
    alloc: Global,
    link: &mut MemoryLink,
    server: &Server,
    name: &str,
) -> Result<String, PeerError> {
    let asked = text(alloc, name)?;
    let part = fetch(alloc, link, server, AGENT, &asked)?;
    if part.name != asked {
        return Ok(String::from_str(alloc, "another name")?);
    }
    content(alloc, part.bytes.as_slice())
}

fn module(alloc: Global, link: &mut MemoryLink, server: &Server) -> Result<String, PeerError> {
    let name = text(alloc, "xWeb")?;
    let version = text(alloc, "1.0 b")?;
    let bytes = fetch_module(alloc, link, server, AGENT, &name, &version)?;
    content(alloc, &bytes)
}

// The bytes as a text, or how many they are.
fn content(alloc: Global, bytes: &[u8]) -> Result<String, PeerError> {
    match str::from_utf8(bytes) {
        Ok(text) if text.len() < 100 => Ok(String::from_str(alloc, text)?),
        _ => Ok(format!(in alloc; "{} bytes", bytes.len())?),
    }
}

fn reported(alloc: Global, link: &mut MemoryLink, server: &Server) -> Result<String, PeerError> {
    let message = message(alloc)?;
    done(
        alloc,
        pull_client::report(alloc, link, server, AGENT, &message),
    )
}

fn message(alloc: Global) -> Result<ReportMessage, Memory> {
    let report = report(alloc)?;
    if is_in_size(&report) {
        message_of(alloc, &report, AGENT)
    } else {
        Err(Memory)
    }
}
