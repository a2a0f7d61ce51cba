//! A change that a bank has no capacity for.
ghost use Rattle.pull_store.specs.Store.{IsReady};

use super::full_disk::FullDisk;
use crate::{ask, new_shelf};
use dsc_outside::Disk;
use pull_outside::Shelf;
use pull_store::{PullError, PullStore, open_pull};
use std::alloc::{AllocError, Global};
use std::rt::HostRuntime;

// The body of a request.
#[derive(Clone, Copy, Debug)]
enum Body {
    /// A registration with empty texts.
    Short,

    /// A registration with texts of 65,535 and 65,461 bytes.
    Long,

    /// A report of 131,072 bytes.
    Report,
}

// A registration of the agent 0x511, signed under k0.
const SHORT: &str =
    "PUT /PSDSCPullServer.svc/Nodes(AgentId='00000000-0000-0000-0000-000000000511') HTTP/1.1\r\nx-ms-date: 2026-01-02T03:04:05.0000000Z\r\nAuthorization: Shared 5KBfqCD3vDC1wFJQxFLpqxtEvNn3yBJNH2Bu5tV+F3M=\r\n";

const LONG: &str =
    "PUT /PSDSCPullServer.svc/Nodes(AgentId='00000000-0000-0000-0000-000000000511') HTTP/1.1\r\nx-ms-date: 2026-01-02T03:04:05.0000000Z\r\nAuthorization: Shared y7kjAehqLUxqIYVFET+JbxhwcuA7DK8z1V+vYAQSz4Y=\r\n";

// The registration of a new agent.
const NEW: &str =
    "PUT /PSDSCPullServer.svc/Nodes(AgentId='00000000-0000-0000-0000-000000000512') HTTP/1.1\r\nx-ms-date: 2026-01-02T03:04:05.0000000Z\r\nAuthorization: Shared y7kjAehqLUxqIYVFET+JbxhwcuA7DK8z1V+vYAQSz4Y=\r\n";

const REPORT: &str =
    "POST /PSDSCPullServer.svc/Nodes(AgentId='00000000-0000-0000-0000-000000000511')/SendReport HTTP/1.1\r\n";

// A report of an agent whose cells were whole.
const OTHER_REPORT: &str =
    "POST /PSDSCPullServer.svc/Nodes(AgentId='00000000-0000-0000-0000-000000000010')/SendReport HTTP/1.1\r\n";

// A head, a body, and what is answered. A short registration fits the live bank. A report does not, and is answered 200
// once the other bank is written: it takes the place of one that is as long.
const ROWS: &[(&str, Body, u16)] = &[
    (LONG, Body::Long, 507),
    (NEW, Body::Long, 503),
    (SHORT, Body::Short, 204),
    (LONG, Body::Long, 507),
    (REPORT, Body::Report, 200),
    (OTHER_REPORT, Body::Report, 200),
    (LONG, Body::Long, 507),
    (SHORT, Body::Short, 204),
];

fn push_text(text: &mut String, byte: char, size: usize) -> Result<(), AllocError> {
    text.push('"')?;
    for _ in 0..size {
        text.push(byte)?;
    }
    text.push('"')
}

fn push_registration(text: &mut String, version: usize, node: usize) -> Result<(), AllocError> {
    text.push_str("{\"AgentInformation\":{\"LCMVersion\":")?;
    push_text(text, 'v', version)?;
    text.push_str(",\"NodeName\":")?;
    push_text(text, 'n', node)?;
    text.push_str("},\"ConfigurationNames\":[]}")
}

fn push_report(text: &mut String) -> Result<(), AllocError> {
    text.push_str(
        "{\"JobId\":\"00000000-0000-0000-0000-000000000011\",\"Errors\":[],\"StatusData\":[",
    )?;
    push_text(text, 's', 130_994)?;
    text.push_str("]}")
}

fn text_of(alloc: Global, body: Body) -> Result<String, AllocError> {
    let mut text = String::new(alloc);
    match body {
        Body::Short => push_registration(&mut text, 0, 0)?,
        Body::Long => push_registration(&mut text, 65_535, 65_461)?,
        Body::Report => push_report(&mut text)?,
    }
    Ok(text)
}

// The code of the answer; 0 where there is none.
fn code_of<D: Disk, S: Shelf>(
    alloc: Global,
    store: &mut PullStore,
    disk: &mut D,
    shelf: &mut S,
    head: &str,
    body: Body,
) -> Result<u16, AllocError>
    requires { IsReady D.Disk disk.old store.old }
    ensures { IsReady D.Disk disk.new store.new }
{
    let text = text_of(alloc, body)?;
    match ask(alloc, store, disk, shelf, head, text.as_str()) {
        Some(reply) => Ok(reply.code),
        None => Ok(0),
    }
}

// The first row that is answered otherwise.
fn first_other<D: Disk, S: Shelf>(
    alloc: Global,
    store: &mut PullStore,
    disk: &mut D,
    shelf: &mut S,
) -> Result<Option<usize>, AllocError>
    requires { IsReady D.Disk disk.old store.old }
{
    for (place, (head, body, code)) in ROWS.iter().enumerate() {
        if code_of(alloc, store, disk, shelf, head, *body)? != *code {
            return Ok(Some(place));
        }
    }
    Ok(None)
}

fn first_other_of(alloc: Global) -> Result<Option<usize>, PullError> {
    let mut disk = FullDisk::new(alloc)?;
    let mut shelf = new_shelf(alloc, &[])?;
    let mut store = open_pull(alloc, &mut disk)?;
    Ok(first_other(alloc, &mut store, &mut disk, &mut shelf)?)
}

#[test]
fn a_change_without_capacity_is_answered_507(rt: HostRuntime) {
    assert_eq!(rt; first_other_of(rt.alloc()), Ok(None));
}
