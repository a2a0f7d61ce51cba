//! What `get` and `reports` print of a node.
ghost use Rattle.std.specs.Prelude.{◌≡◌, ◌++◌, IfOk, OnOk, codes, encode_utf8_all, string_bytes};
ghost use Rattle.std.specs.List.{flat_map};
ghost use Rattle.std.specs.Fmt.{decimal};
ghost use Rattle.shared_key.specs.Checksum.{checksum_of};
ghost use Rattle.meta_config.specs.Urls.{url_of};
ghost use Rattle.meta_config.specs.Words.{after_name, mode_name, refresh_name};
ghost use Rattle.meta_config.specs.Writing.{site_at_server};
ghost use Rattle.dsc_node.specs.Quoted.{quoted};
ghost use Rattle.dsc_node.specs.Shown.{agent_line, agent_text, line, meta_lines, node_text, outcome_name, part_text, parts_text, report_line, reports_text, sent_word, server_text, slot_line, slot_lines, yes_no};

use meta_config::{AfterReboot, ConfigMode, Meta, RefreshMode, Server, url_of};
use mof_codec::push_literal;
use node_state::{Kept, Node, SharedParts};
use partial_merge::Part;
use report_log::{Outcome, Report};
use std::alloc::{AllocError, Global};
use uuid::Uuid;

/// The lines of a node: its agent, how it is to behave, whether a reboot was asked for, the number of the next report, and the
/// parts that it keeps.
pub(crate) fn node_text(alloc: Global, node: &Node) -> Result<String, AllocError>
    ensures { IfOk result (λ text. string_bytes text ≡ node_text node.now) }
{
    let mut out = String::new(alloc);
    if let Some(agent) = node.agent {
        push_agent(&mut out, agent)?;
    }
    push_flag(&mut out, "registered", node.registered)?;
    push_meta(&mut out, &node.meta)?;
    push_flag(&mut out, "reboot", node.reboot)?;
    push_job(&mut out, node.next_job)?;
    push_slots(&mut out, node)?;
    Ok(out)
}

#[tactic(auto, unfolding(crate::specs::Shown::line))]
fn push_line(out: &mut String, name: &str, says: &str) -> Result<(), AllocError>
    ensures { OnOk result (string_bytes out.new ≡ string_bytes out.old ++ line name.now says.now) }
{
    out.push_str(name)?;
    out.push_str(" ")?;
    out.push_str(says)?;
    out.push_str("\n")
}

fn push_flag(out: &mut String, name: &str, yes: bool) -> Result<(), AllocError>
    ensures { OnOk result (string_bytes out.new
        ≡ string_bytes out.old ++ line name.now (yes_no yes)) }
{
    push_line(out, name, yes_no(yes))
}

fn yes_no(yes: bool) -> &'static str
    ensures { result.now ≡ yes_no yes }
{
    if yes { "yes" } else { "no" }
}

#[tactic(auto, unfolding(crate::specs::Shown::line))]
fn push_agent(out: &mut String, agent: u128) -> Result<(), AllocError>
    ensures { OnOk result (string_bytes out.new
        ≡ string_bytes out.old ++ line (codes "agent") (agent_text agent)) }
{
    out.push_str("agent ")?;
    push_id(out, agent)?;
    out.push_str("\n")
}

fn push_id(out: &mut String, agent: u128) -> Result<(), AllocError>
    ensures { OnOk result (string_bytes out.new ≡ string_bytes out.old ++ agent_text agent) }
{
    let mut buffer = Uuid::encode_buffer();
    let id = Uuid::from_u128(agent);
    out.push_str(id.hyphenated().encode_lower(&mut buffer))
}

fn push_meta(out: &mut String, meta: &Meta) -> Result<(), AllocError>
    ensures { OnOk result (string_bytes out.new ≡ string_bytes out.old ++ meta_lines meta.now) }
{
    push_modes(out, meta.mode, meta.refresh)?;
    push_frequencies(out, meta.mode_mins, meta.refresh_mins)?;
    push_flag(out, "reboot policy", meta.reboot_if_needed)?;
    push_after(out, meta.after)?;
    push_flag(out, "overwrite", meta.module_overwrite)?;
    push_server(out, &meta.server)
}

#[tactic(auto, unfolding(crate::specs::Shown::line))]
fn push_modes(out: &mut String, mode: ConfigMode, refresh: RefreshMode) -> Result<(), AllocError>
    ensures { OnOk result (string_bytes out.new ≡ string_bytes out.old ++ line (codes "mode")
        (mode_name mode ++ codes " " ++ refresh_name refresh)) }
{
    out.push_str("mode ")?;
    out.push_str(mode.name())?;
    out.push_str(" ")?;
    out.push_str(refresh.name())?;
    out.push_str("\n")
}

fn push_frequencies(out: &mut String, mode: u32, refresh: u32) -> Result<(), AllocError>
    ensures { OnOk result (string_bytes out.new ≡ string_bytes out.old ++ line (codes "frequencies")
        (decimal mode ++ codes " " ++ decimal refresh)) }
{
    write!(out, "frequencies {mode} {refresh}\n")
}

fn push_after(out: &mut String, after: AfterReboot) -> Result<(), AllocError>
    ensures { OnOk result (string_bytes out.new
        ≡ string_bytes out.old ++ line (codes "after") (after_name after)) }
{
    push_line(out, "after", after.name())
}

fn push_server(out: &mut String, server: &Option<Server>) -> Result<(), AllocError>
    ensures { OnOk result (string_bytes out.new
        ≡ string_bytes out.old ++ line (codes "server") (server_text server.now)) }
{
    match server {
        None => push_line(out, "server", "none"),
        Some(server) => {
            let url = server_url(*out.allocator(), server)?;
            push_line(out, "server", &url)
        }
    }
}

// The URL of a server, in UTF-8.
fn server_url(alloc: Global, server: &Server) -> Result<String, AllocError>
    ensures { IfOk result (λ url. string_bytes url
        ≡ encode_utf8_all (url_of (site_at_server server.now))) }
{
    let url = url_of(alloc, server.https, &server.peer, &server.prefix)?;
    url.as_slice().iter().copied().collect(alloc)
}

#[tactic(auto, unfolding(crate::specs::Shown::line))]
fn push_job(out: &mut String, job: u64) -> Result<(), AllocError>
    ensures { OnOk result (string_bytes out.new
        ≡ string_bytes out.old ++ line (codes "job") (decimal job)) }
{
    write!(out, "job {job}\n")
}

fn push_slots(out: &mut String, node: &Node) -> Result<(), AllocError>
    ensures { OnOk result (string_bytes out.new ≡ string_bytes out.old ++ slot_lines node.now) }
{
    push_slot(out, "pending", &node.pending)?;
    push_slot(out, "current", &node.current)?;
    push_slot(out, "previous", &node.previous)
}

fn push_slot(out: &mut String, name: &str, parts: &Option<SharedParts>) -> Result<(), AllocError>
    ensures { OnOk result (string_bytes out.new
        ≡ string_bytes out.old ++ slot_line name.now parts.now) }
{
    out.push_str(name)?;
    push_parts(out, parts)?;
    out.push_str("\n")
}

fn push_parts(out: &mut String, parts: &Option<SharedParts>) -> Result<(), AllocError>
    ensures { OnOk result (string_bytes out.new ≡ string_bytes out.old ++ parts_text parts.now) }
{
    let Some(parts) = parts else {
        return out.push_str(" -");
    };
    for part in parts.as_slice() {
        push_part(out, part)?;
    }
    Ok(())
}

fn push_part(out: &mut String, part: &Part) -> Result<(), AllocError>
    ensures { OnOk result (string_bytes out.new ≡ string_bytes out.old ++ part_text part.now) }
{
    out.push_str(" ")?;
    push_literal(out, part.name.as_slice())?;
    out.push_str(" ")?;
    push_checksum(out, &part.digest)
}

#[tactic(auto, using(crate::proofs::Shown::checksum_is))]
fn push_checksum(out: &mut String, digest: &[u8; 32]) -> Result<(), AllocError>
    ensures { OnOk result (string_bytes out.new ≡ string_bytes out.old ++ checksum_of digest.now) }
{
    let text = hex::encode_upper(*out.allocator(), digest)?;
    out.push_str(&text)
}

/// The lines of the reports that a node keeps, the oldest first.
pub(crate) fn reports_text(alloc: Global, node: &Node) -> Result<String, AllocError>
    ensures { IfOk result (λ text. string_bytes text ≡ reports_text node.now) }
{
    let mut out = String::new(alloc);
    for kept in node.reports.as_slice() {
        push_report(&mut out, kept)?;
    }
    Ok(out)
}

#[tactic(auto, unfolding(crate::specs::Shown::line))]
fn push_report(out: &mut String, kept: &Kept) -> Result<(), AllocError>
    ensures { OnOk result (string_bytes out.new ≡ string_bytes out.old ++ report_line kept.now) }
{
    let Report {
        job,
        total,
        missed,
        ..
    } = &kept.report;
    write!(out, "report {job} ")?;
    out.push_str(outcome_name(kept.report.outcome))?;
    write!(out, " {total} {missed} ")?;
    out.push_str(sent_word(kept.sent))?;
    out.push_str("\n")
}

fn sent_word(sent: bool) -> &'static str
    ensures { result.now ≡ sent_word sent }
{
    if sent { "sent" } else { "unsent" }
}

fn outcome_name(outcome: Outcome) -> &'static str
    ensures { result.now ≡ outcome_name outcome }
{
    match outcome {
        Outcome::Success => "Success",
        Outcome::Failure => "Failure",
        Outcome::Reboot => "Reboot",
    }
}
