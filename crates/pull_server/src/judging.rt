//! The rows of the table up to that of a spent store, and those of what is read alone.
ghost use Rattle.std.specs.Prelude.{◌≡◌, ◌≤◌, ◌||◌, not, Ok, Err, IfOk, bytes_eq, codes, length};
ghost use Rattle.dsc_terms.specs.Counts.{Rose};
ghost use Rattle.http_frames.specs.Headers.{all_named, is_named};
ghost use Rattle.pull_messages.specs.declared.target_kinds.Target.TheVariants.{Node, Action, Content, Module, SendReport};
ghost use Rattle.pull_store.specs.Sound.{most_bytes};
ghost use Rattle.pull_server.specs.Asked.{method_of};
ghost use Rattle.pull_store.specs.Store.{is_spent};
ghost use Rattle.pull_server.specs.Judging.{IsPastHead, ItemReply, Judged, Judges, QueryReply};
ghost use Rattle.pull_server.specs.Table.{is_known, is_version};

use crate::acting::{action, asks_unnamed};
use crate::fetching::{content, package};
use crate::replies::{bad_message, bad_target, content_reply, message_reply, plain};
use crate::signatures::is_signed;
use crate::verdict::Verdict;
use http_frames::{Header, Reply, Request};
use mof_values::{Memory, Text};
use pull_messages::{
    ActionQuery, Target, TargetError, read_query, read_registration, read_report, target,
    write_action,
};
use pull_outside::{Shelf, ShelfError};
use pull_store::{PullStore, Row};
use std::alloc::Global;

/// What a request comes to.
pub fn judge<S: Shelf>(
    alloc: Global,
    store: &PullStore,
    shelf: &mut S,
    request: &Request,
) -> Result<Verdict, Memory>
    requires { length request.now.body ≤ most_bytes }
    ensures judges { IfOk result (Judges store.now request.now
        (S.holds shelf.old) (Rose (S.faults shelf.old) (S.faults shelf.new))) }
    ensures same { S.holds shelf.new ≡ S.holds shelf.old }
    ensures count { S.faults shelf.old ≤ S.faults shelf.new }
{
    match target(alloc, request.target.as_slice()) {
        Ok(target) => judge_target(alloc, store, shelf, request, &target),
        Err(TargetError::BadTarget { at }) => judge_no_target(alloc, store, shelf, request, at),
        Err(TargetError::Memory) => Err(Memory),
    }
}

fn judge_no_target<S: Shelf>(
    alloc: Global,
    store: &PullStore,
    shelf: &mut S,
    request: &Request,
    at: usize,
) -> Result<Verdict, Memory>
    ensures judged { IfOk result (Judged store.now request.now (Err at)
        (S.holds shelf.old) (Rose (S.faults shelf.old) (S.faults shelf.new))) }
    ensures shelf { shelf.new ≡ shelf.old }
{
    if !is_known(request.method.as_slice()) {
        return Ok(Verdict::Says(plain(alloc, 501)));
    }
    Ok(Verdict::Says(bad_target(alloc, at)?))
}

fn judge_target<S: Shelf>(
    alloc: Global,
    store: &PullStore,
    shelf: &mut S,
    request: &Request,
    target: &Target,
) -> Result<Verdict, Memory>
    requires { length request.now.body ≤ most_bytes }
    ensures judged { IfOk result (Judged store.now request.now (Ok target.now)
        (S.holds shelf.old) (Rose (S.faults shelf.old) (S.faults shelf.new))) }
    ensures same { S.holds shelf.new ≡ S.holds shelf.old }
    ensures count { S.faults shelf.old ≤ S.faults shelf.new }
{
    if !is_known(request.method.as_slice()) {
        return Ok(Verdict::Says(plain(alloc, 501)));
    }
    if !has_method(request.method.as_slice(), target) {
        return Ok(Verdict::Says(plain(alloc, 405)));
    }
    if !is_of_version(request.headers.as_slice()) {
        let reply = Reply::saying(alloc, 400, b"wrong ProtocolVersion")?;
        return Ok(Verdict::Says(reply));
    }
    judge_past_head(alloc, store, shelf, request, target)
}

fn judge_past_head<S: Shelf>(
    alloc: Global,
    store: &PullStore,
    shelf: &mut S,
    request: &Request,
    target: &Target,
) -> Result<Verdict, Memory>
    requires size { length request.now.body ≤ most_bytes }
    requires past { IsPastHead store.now request.now target.now }
    ensures judged { IfOk result (Judged store.now request.now (Ok target.now)
        (S.holds shelf.old) (Rose (S.faults shelf.old) (S.faults shelf.new))) }
    ensures same { S.holds shelf.new ≡ S.holds shelf.old }
    ensures count { S.faults shelf.old ≤ S.faults shelf.new }
{
    match target {
        Target::Node(agent) => judge_registration(alloc, store, shelf, request, *agent),
        Target::Action(agent) => judge_action(alloc, store, shelf, request, *agent),
        Target::Content(agent, name) => judge_content(alloc, store, shelf, request, *agent, name),
        Target::Module(name, version) => judge_package(alloc, store, shelf, request, name, version),
        Target::SendReport(agent) => judge_report(alloc, store, shelf, request, *agent),
    }
}

/// Whether the method is one of GET, PUT and POST.
pub fn is_known(method: &[u8]) -> bool
    ensures { result ≡ is_known method.now }
{
    method == b"GET".as_slice() || method == b"PUT".as_slice() || method == b"POST".as_slice()
}

fn has_method(method: &[u8], target: &Target) -> bool
    ensures { result ≡ bytes_eq method.now (method_of target.now) }
{
    method == method_of(target)
}

// The method that belongs to a target.
fn method_of(target: &Target) -> &'static [u8]
    ensures { result.now ≡ method_of target.now }
{
    match target {
        Target::Node(_) => b"PUT",
        Target::Action(_) | Target::SendReport(_) => b"POST",
        Target::Content(_, _) | Target::Module(_, _) => b"GET",
    }
}

/// Whether each ProtocolVersion header is 2.0.
pub fn is_of_version(headers: &[Header]) -> bool
    ensures { result ≡ all_named (codes "ProtocolVersion") is_version headers.now }
{
    headers.iter().all(|header| is_of_version_if_named(header))
}

fn judge_registration<S: Shelf>(
    alloc: Global,
    store: &PullStore,
    shelf: &mut S,
    request: &Request,
    agent: u128,
) -> Result<Verdict, Memory>
    requires size { length request.now.body ≤ most_bytes }
    requires past { IsPastHead store.now request.now (Node agent) }
    ensures judged { IfOk result (Judged store.now request.now (Ok (Node agent))
        (S.holds shelf.old) (Rose (S.faults shelf.old) (S.faults shelf.new))) }
    ensures same { S.holds shelf.new ≡ S.holds shelf.old }
    ensures count { S.faults shelf.old ≤ S.faults shelf.new }
{
    match is_signed(alloc, shelf, request) {
        Ok(true) => {}
        Ok(false) => return Ok(Verdict::Says(plain(alloc, 401))),
        Err(ShelfError::Failed) => return Ok(Verdict::Says(plain(alloc, 500))),
        Err(ShelfError::Memory) => return Err(Memory),
    }
    match read_registration(alloc, request.body.as_slice()) {
        Ok(registration) => Ok(Verdict::Register(agent, registration)),
        Err(error) => Ok(Verdict::Says(bad_message(alloc, error)?)),
    }
}

fn judge_report<S: Shelf>(
    alloc: Global,
    store: &PullStore,
    shelf: &mut S,
    request: &Request,
    agent: u128,
) -> Result<Verdict, Memory>
    requires size { length request.now.body ≤ most_bytes }
    requires past { IsPastHead store.now request.now (SendReport agent) }
    ensures judged { IfOk result (Judged store.now request.now (Ok (SendReport agent))
        (S.holds shelf.old) (Rose (S.faults shelf.old) (S.faults shelf.new))) }
    ensures shelf { shelf.new ≡ shelf.old }
{
    let Some(_row) = store.agent(agent) else {
        return Ok(Verdict::Says(plain(alloc, 404)));
    };
    match read_report(alloc, request.body.as_slice()) {
        Ok(report) => Ok(Verdict::Report(
            agent,
            report.job,
            request.body.as_slice().to_vec(alloc)?,
        )),
        Err(error) => Ok(Verdict::Says(bad_message(alloc, error)?)),
    }
}

fn judge_action<S: Shelf>(
    alloc: Global,
    store: &PullStore,
    shelf: &mut S,
    request: &Request,
    agent: u128,
) -> Result<Verdict, Memory>
    requires { IsPastHead store.now request.now (Action agent) }
    ensures judged { IfOk result (Judged store.now request.now (Ok (Action agent))
        (S.holds shelf.old) (Rose (S.faults shelf.old) (S.faults shelf.new))) }
    ensures same { S.holds shelf.new ≡ S.holds shelf.old }
    ensures count { S.faults shelf.old ≤ S.faults shelf.new }
{
    let Some(row) = store.agent(agent) else {
        return Ok(Verdict::Says(plain(alloc, 404)));
    };
    match read_query(alloc, request.body.as_slice()) {
        Ok(query) => Ok(Verdict::Says(judge_query(alloc, store, shelf, row, &query)?)),
        Err(error) => Ok(Verdict::Says(bad_message(alloc, error)?)),
    }
}

fn judge_content<S: Shelf>(
    alloc: Global,
    store: &PullStore,
    shelf: &mut S,
    request: &Request,
    agent: u128,
    name: &Text,
) -> Result<Verdict, Memory>
    requires past { IsPastHead store.now request.now (Content agent name.now) }
    ensures judged { IfOk result (Judged store.now request.now (Ok (Content agent name.now))
        (S.holds shelf.old) (Rose (S.faults shelf.old) (S.faults shelf.new))) }
    ensures same { S.holds shelf.new ≡ S.holds shelf.old }
    ensures count { S.faults shelf.old ≤ S.faults shelf.new }
{
    let Some(row) = store.agent(agent) else {
        return Ok(Verdict::Says(plain(alloc, 404)));
    };
    let found = content(alloc, shelf, row.registration.names.as_slice(), name);
    Ok(Verdict::Says(item_reply(alloc, shelf, store.is_spent(), found)?))
}

fn judge_package<S: Shelf>(
    alloc: Global,
    store: &PullStore,
    shelf: &mut S,
    request: &Request,
    name: &Text,
    version: &Text,
) -> Result<Verdict, Memory>
    requires past { IsPastHead store.now request.now (Module name.now version.now) }
    ensures judged { IfOk result (Judged store.now request.now (Ok (Module name.now version.now))
        (S.holds shelf.old) (Rose (S.faults shelf.old) (S.faults shelf.new))) }
    ensures same { S.holds shelf.new ≡ S.holds shelf.old }
    ensures count { S.faults shelf.old ≤ S.faults shelf.new }
{
    let found = package(alloc, shelf, name, version);
    Ok(Verdict::Says(item_reply(alloc, shelf, store.is_spent(), found)?))
}

fn is_of_version_if_named(header: &Header) -> bool
    ensures { result ≡ (not (is_named (codes "ProtocolVersion") header.now)
        || is_version header.now.value) }
{
    !header
        .name
        .as_slice()
        .eq_ignore_ascii_case(b"ProtocolVersion")
        || header.value.as_slice() == b"2.0".as_slice()
}

// A query of the agent of that row.
fn judge_query<S: Shelf>(
    alloc: Global,
    store: &PullStore,
    shelf: &mut S,
    row: &Row,
    query: &ActionQuery,
) -> Result<Reply, Memory>
    ensures reply { IfOk result (QueryReply (is_spent store.now)
        row.now.registration.names query.now
        (S.holds shelf.old) (Rose (S.faults shelf.old) (S.faults shelf.new))) }
    ensures same { S.holds shelf.new ≡ S.holds shelf.old }
    ensures count { S.faults shelf.old ≤ S.faults shelf.new }
{
    let names = row.registration.names.as_slice();
    if asks_unnamed(names, query) {
        return Reply::saying(alloc, 400, b"wrong ConfigurationName");
    }
    if store.is_spent() {
        return Ok(plain(alloc, 500));
    }
    match action(alloc, shelf, names, query) {
        Ok(answer) => message_reply(alloc, write_action(alloc, &answer)?),
        Err(ShelfError::Failed) => Ok(plain(alloc, 500)),
        Err(ShelfError::Memory) => Err(Memory),
    }
}

// What was found of what is fetched.
fn item_reply<S: Shelf>(
    alloc: Global,
    shelf: &mut S,
    spent: bool,
    found: Result<Option<Vec<u8>>, ShelfError>,
) -> Result<Reply, Memory>
    ensures reply { IfOk result (ItemReply spent found) }
    ensures same { S.holds shelf.new ≡ S.holds shelf.old }
    ensures faults { S.faults shelf.new ≡ S.faults shelf.old }
{
    match found {
        Ok(Some(_)) if spent => Ok(plain(alloc, 500)),
        Ok(Some(bytes)) => content_reply(alloc, shelf, bytes),
        Ok(None) => Ok(plain(alloc, 404)),
        Err(ShelfError::Failed) => Ok(plain(alloc, 500)),
        Err(ShelfError::Memory) => Err(Memory),
    }
}
