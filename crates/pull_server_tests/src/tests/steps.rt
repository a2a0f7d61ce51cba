//! Requests of many sizes, and what they are answered.
use http_frames::Reply;
use std::alloc::{AllocError, Global};

/// What a request asks for.
#[derive(Clone, Copy)]
pub enum Asked {
    /// To be registered under these names.
    Registration(Said),

    /// To keep a report with that many errors, and one text of status data of that many bytes.
    Report(usize, usize),

    /// What to do about that many clients.
    Action(Query),

    /// A configuration whose name has that many bytes.
    Content(usize),

    /// A package of the module whose name has that many bytes.
    Package(usize),
}

/// A registration: the bytes of the version and of the node's name, how many names there are, and the bytes of the first name;
/// each further one has a byte more.
#[derive(Clone, Copy)]
pub struct Said {
    pub version: usize,
    pub node: usize,
    pub names: usize,
    pub first: usize,

    /// The signature of its body under the key k0.
    pub signature: &'static str,
}

/// A query: that many clients, each with a name and a checksum of that many bytes.
#[derive(Clone, Copy)]
pub struct Query {
    pub clients: usize,
    pub name: usize,
    pub checksum: usize,
}

/// What is wanted of an answer beside its code.
#[derive(Clone, Copy)]
pub enum Wanted {
    Code,

    /// A body of that many bytes under this checksum.
    Item(usize, &'static str),

    /// This status of each client and of the node.
    Status(Query, &'static str),
}

/// A request that each of some agents sends: the first agent, how many there are, what they ask for, and what they are answered.
#[derive(Clone, Copy)]
pub struct Step {
    pub first: u32,
    pub count: u32,
    pub asked: Asked,
    pub code: u16,
    pub wanted: Wanted,
}

// Adds a text of that many bytes in quotes.
fn push_text(text: &mut String, byte: char, size: usize) -> Result<(), AllocError> {
    text.push('"')?;
    for _ in 0..size {
        text.push(byte)?;
    }
    text.push('"')
}

// Adds that many texts, of which the first has that many bytes and each further one that many more.
fn push_texts(
    text: &mut String,
    byte: char,
    count: usize,
    first: usize,
    more: usize,
) -> Result<(), AllocError> {
    let mut size = first;
    for place in 0..count {
        if 0 < place {
            text.push(',')?;
        }
        push_text(text, byte, size)?;
        size = size.saturating_add(more);
    }
    Ok(())
}

fn said_body(text: &mut String, said: Said) -> Result<(), AllocError> {
    text.push_str("{\"AgentInformation\":{\"LCMVersion\":")?;
    push_text(text, 'v', said.version)?;
    text.push_str(",\"NodeName\":")?;
    push_text(text, 'n', said.node)?;
    text.push_str("},\"ConfigurationNames\":[")?;
    push_texts(text, 'n', said.names, said.first, 1)?;
    text.push_str("]}")
}

fn report_body(text: &mut String, errors: usize, data: usize) -> Result<(), AllocError> {
    text.push_str("{\"JobId\":\"00000000-0000-0000-0000-000000000011\",\"Errors\":[")?;
    push_texts(text, 'e', errors, 1, 0)?;
    text.push_str("],\"StatusData\":[")?;
    push_text(text, 's', data)?;
    text.push_str("]}")
}

fn push_client(text: &mut String, query: Query) -> Result<(), AllocError> {
    text.push_str("{\"Checksum\":")?;
    push_text(text, 'A', query.checksum)?;
    text.push_str(",\"ConfigurationName\":")?;
    push_text(text, 'n', query.name)?;
    text.push('}')
}

fn query_body(text: &mut String, query: Query) -> Result<(), AllocError> {
    text.push_str("{\"ClientStatus\":[")?;
    for place in 0..query.clients {
        if 0 < place {
            text.push(',')?;
        }
        push_client(text, query)?;
    }
    text.push_str("]}")
}

fn push_detail(text: &mut String, query: Query, status: &str) -> Result<(), AllocError> {
    text.push_str("{\"ConfigurationName\":")?;
    push_text(text, 'n', query.name)?;
    text.push_str(",\"Status\":\"")?;
    text.push_str(status)?;
    text.push_str("\"}")
}

// The answer to a query whose clients all have this status.
fn action_body(alloc: Global, query: Query, status: &str) -> Result<String, AllocError> {
    let mut text = String::new(alloc);
    text.push_str("{\"Details\":[")?;
    for place in 0..query.clients {
        if 0 < place {
            text.push(',')?;
        }
        push_detail(&mut text, query, status)?;
    }
    text.push_str("],\"NodeStatus\":\"")?;
    text.push_str(status)?;
    text.push_str("\"}")?;
    Ok(text)
}

/// The body of a request.
pub fn body_of(alloc: Global, asked: Asked) -> Result<String, AllocError> {
    let mut text = String::new(alloc);
    match asked {
        Asked::Registration(said) => said_body(&mut text, said)?,
        Asked::Report(errors, data) => report_body(&mut text, errors, data)?,
        Asked::Action(query) => query_body(&mut text, query)?,
        Asked::Content(_) | Asked::Package(_) => {}
    }
    Ok(text)
}

// The beginning of a target of an agent.
fn push_agent(text: &mut String, agent: u32) -> Result<(), AllocError> {
    let front = format!(in *text.allocator();
        "/PSDSCPullServer.svc/Nodes(AgentId='00000000-0000-0000-0000-{agent:012}')"
    )?;
    text.push_str(front.as_str())
}

// A text of that many bytes in single quotes.
fn push_name(text: &mut String, size: usize) -> Result<(), AllocError> {
    text.push('\'')?;
    for _ in 0..size {
        text.push('n')?;
    }
    text.push('\'')
}

fn push_signed(text: &mut String, agent: u32, signature: &str) -> Result<(), AllocError> {
    text.push_str("PUT ")?;
    push_agent(text, agent)?;
    text.push_str(
        " HTTP/1.1\r\nx-ms-date: 2026-01-02T03:04:05.0000000Z\r\nAuthorization: Shared ",
    )?;
    text.push_str(signature)?;
    text.push_str("\r\n")
}

fn push_post(text: &mut String, agent: u32, end: &str) -> Result<(), AllocError> {
    text.push_str("POST ")?;
    push_agent(text, agent)?;
    text.push_str(end)?;
    text.push_str(" HTTP/1.1\r\n")
}

fn push_content(text: &mut String, agent: u32, name: usize) -> Result<(), AllocError> {
    text.push_str("GET ")?;
    push_agent(text, agent)?;
    text.push_str("/Configurations(ConfigurationName=")?;
    push_name(text, name)?;
    text.push_str(")/ConfigurationContent HTTP/1.1\r\n")
}

fn push_package(text: &mut String, name: usize) -> Result<(), AllocError> {
    text.push_str("GET /PSDSCPullServer.svc/Modules(ModuleName=")?;
    push_name(text, name)?;
    text.push_str(",ModuleVersion='1.0')/ModuleContent HTTP/1.1\r\n")
}

/// The head of a request of an agent, without its length.
pub fn head_of(alloc: Global, agent: u32, asked: Asked) -> Result<String, AllocError> {
    let mut text = String::new(alloc);
    match asked {
        Asked::Registration(said) => push_signed(&mut text, agent, said.signature)?,
        Asked::Report(_, _) => push_post(&mut text, agent, "/SendReport")?,
        Asked::Action(_) => push_post(&mut text, agent, "/GetDscAction")?,
        Asked::Content(name) => push_content(&mut text, agent, name)?,
        Asked::Package(name) => push_package(&mut text, name)?,
    }
    Ok(text)
}

// Whether a reply has this checksum.
fn has_checksum(reply: &Reply, checksum: &str) -> bool {
    reply.headers.as_slice().iter().any(|header| {
        header.name.as_slice() == b"Checksum".as_slice()
            && header.value.as_slice() == checksum.as_bytes()
    })
}

/// Whether a reply is what is wanted.
pub fn is_wanted(
    alloc: Global,
    reply: &Reply,
    code: u16,
    wanted: Wanted,
) -> Result<bool, AllocError> {
    if reply.code != code {
        return Ok(false);
    }
    Ok(match wanted {
        Wanted::Code => true,
        Wanted::Item(size, checksum) => {
            reply.body.as_slice().len() == size && has_checksum(reply, checksum)
        }
        Wanted::Status(query, status) => {
            reply.body.as_slice() == action_body(alloc, query, status)?.as_bytes()
        }
    })
}
