//! The requests of a node, as they are written.
ghost use Rattle.std.specs.Prelude.{◌≡◌, ◌∷◌, [], IfOk, encode_utf8_all, string_bytes};
ghost use Rattle.std.specs.Fmt.{decimal};
ghost use Rattle.pull_client.specs.Queries.{query_of};
ghost use Rattle.pull_client.specs.Requests.{authorization, content_request, content_type, date_header, got, host_text, module_request, posted, protocol_version, put, query_request, registration_of, registration_request, report_request, signed_headers, written};

use crate::queries::query_of;
use dsc_outside::Peer;
use http_frames::{Header, Request, write_request};
use meta_config::Server;
use mof_values::{Bytes, Items, Memory, Text, copy_texts};
use pull_messages::{
    Registration, ReportMessage, Target, write_query, write_registration, write_report,
    write_target,
};
use report_log::PartMark;
use shared_key::sign;
use std::alloc::{AllocError, Global};

pub fn content_request(
    alloc: Global,
    server: &Server,
    agent: u128,
    name: &Text,
) -> Result<Vec<u8>, Memory>
    ensures { IfOk result (λ bytes. bytes.items ≡ content_request server.now agent name.now) }
{
    get(alloc, server, &Target::Content(agent, name.clone()?))
}

pub fn module_request(
    alloc: Global,
    server: &Server,
    name: &Text,
    version: &Text,
) -> Result<Vec<u8>, Memory>
    ensures { IfOk result (λ bytes. bytes.items ≡ module_request server.now name.now version.now) }
{
    get(alloc, server, &module(name, version)?)
}

fn module(name: &Text, version: &Text) -> Result<Target, AllocError>
    ensures { IfOk result (λ target. target ≡ Target.Module name.now version.now) }
{
    let name = name.clone()?;
    Ok(Target::Module(name, version.clone()?))
}

fn get(alloc: Global, server: &Server, target: &Target) -> Result<Vec<u8>, Memory>
    ensures { IfOk result (λ bytes. bytes.items ≡ got server.now target.now) }
{
    let headers = plain_headers(alloc)?;
    written(alloc, server, "GET", target, headers, Vec::new(alloc))
}

fn plain_headers(alloc: Global) -> Result<Vec<Header>, AllocError>
    ensures { IfOk result (λ headers. headers.items ≡ protocol_version ∷ []) }
{
    let mut headers = Vec::new(alloc);
    headers.push(Header::of(alloc, "ProtocolVersion", b"2.0")?)?;
    Ok(headers)
}

fn post(alloc: Global, server: &Server, target: &Target, body: Vec<u8>) -> Result<Vec<u8>, Memory>
    ensures { IfOk result (λ bytes. bytes.items ≡ posted server.now target.now body.items) }
{
    let headers = body_headers(alloc)?;
    written(alloc, server, "POST", target, headers, body)
}

fn body_headers(alloc: Global) -> Result<Vec<Header>, AllocError>
    ensures { IfOk result (λ headers. headers.items ≡ protocol_version ∷ content_type ∷ []) }
{
    let mut headers = plain_headers(alloc)?;
    headers.push(Header::of(alloc, "Content-Type", b"application/json")?)?;
    Ok(headers)
}

pub fn query_request(
    alloc: Global,
    server: &Server,
    agent: u128,
    held: &[PartMark],
    names: &[Text],
) -> Result<Vec<u8>, Memory>
    ensures { IfOk result (λ bytes. bytes.items
        ≡ query_request server.now agent (query_of held.now names.now)) }
{
    let body = write_query(alloc, &query_of(alloc, held, names)?)?;
    post(alloc, server, &Target::Action(agent), body)
}

pub fn report_request(
    alloc: Global,
    server: &Server,
    agent: u128,
    message: &ReportMessage,
) -> Result<Vec<u8>, Memory>
    ensures { IfOk result (λ bytes. bytes.items ≡ report_request server.now agent message.now) }
{
    let body = write_report(alloc, message)?;
    post(alloc, server, &Target::SendReport(agent), body)
}

pub fn registration_request(
    alloc: Global,
    server: &Server,
    agent: u128,
    node_name: &Text,
    names: &[Text],
    date: &[u8],
) -> Result<Vec<u8>, Memory>
    ensures { IfOk result (λ bytes. bytes.items ≡ registration_request server.now agent
        (registration_of node_name.now names.now) date.now) }
{
    let body = write_registration(alloc, &registration_of(alloc, node_name, names)?)?;
    put(alloc, server, &Target::Node(agent), body, date)
}

fn registration_of(
    alloc: Global,
    node_name: &Text,
    names: &[Text],
) -> Result<Registration, AllocError>
    ensures { IfOk result (λ registration. registration ≡ registration_of node_name.now names.now) }
{
    let lcm_version = Text::from_latin1(alloc, b"2.0")?;
    let node_name = node_name.clone()?;
    let ip_address = Text::of(Vec::new(alloc));
    Ok(Registration {
        lcm_version,
        node_name,
        ip_address,
        names: Items::of(copy_texts(alloc, names)?),
    })
}

fn put(
    alloc: Global,
    server: &Server,
    target: &Target,
    body: Vec<u8>,
    date: &[u8],
) -> Result<Vec<u8>, Memory>
    ensures { IfOk result (λ bytes. bytes.items ≡ put server.now target.now body.items date.now) }
{
    let headers = signed_headers(alloc, server, &body, date)?;
    written(alloc, server, "PUT", target, headers, body)
}

fn signed_headers(
    alloc: Global,
    server: &Server,
    body: &[u8],
    date: &[u8],
) -> Result<Vec<Header>, AllocError>
    ensures { IfOk result (λ headers. headers.items ≡ signed_headers server.now body.now date.now) }
{
    let mut headers = plain_headers(alloc)?;
    headers.push(Header::of(alloc, "x-ms-date", date)?)?;
    headers.push(authorization(alloc, server, body, date)?)?;
    headers.push(Header::of(alloc, "Content-Type", b"application/json")?)?;
    Ok(headers)
}

fn authorization(
    alloc: Global,
    server: &Server,
    body: &[u8],
    date: &[u8],
) -> Result<Header, AllocError>
    ensures { IfOk result (λ header. header ≡ authorization server.now body.now date.now) }
{
    let key = server.key.to_utf8()?;
    let signature = sign(key.as_bytes(), body, date);
    let mut value = b"Shared ".to_vec(alloc)?;
    value.extend_from_slice(&signature)?;
    Header::of(alloc, "Authorization", &value)
}

fn written(
    alloc: Global,
    server: &Server,
    method: &str,
    target: &Target,
    headers: Vec<Header>,
    body: Vec<u8>,
) -> Result<Vec<u8>, Memory>
    ensures { IfOk result (λ bytes. bytes.items
        ≡ written server.now method.now target.now headers.items body.items) }
{
    let request = Request {
        method: Bytes::of(method.as_bytes().to_vec(alloc)?),
        target: Bytes::of(write_target(alloc, &server.prefix, target)?),
        headers: Items::of(headers),
        body: Bytes::of(body),
    };
    write_request(alloc, &request, &host_text(alloc, &server.peer)?)
}

fn host_text(alloc: Global, peer: &Peer) -> Result<Text, AllocError>
    ensures { IfOk result (λ text. text ≡ host_text peer.now) }
{
    let mut chars = peer.host.as_slice().to_vec(alloc)?;
    chars.push(':')?;
    let port = format!(in alloc; "{}", peer.port)?;
    chars.extend_from_slice(Text::from_latin1(alloc, port.as_bytes())?.as_slice())?;
    Ok(Text::of(chars))
}
