//! What events make of a node, which of them are not allowed and why, and which documents fit.
mod fitting;

use dsc_outside::Peer;
use meta_config::{Meta, Server};
use mof_values::{Bytes, Items, Text};
use node_state::*;
use partial_merge::part_of;
use report_log::{Outcome, Report};
use std::process::Abort;
use std::test::Fail;

const HEADER: &[u8] = b"instance of OMI_ConfigurationDocument{};";

pub(crate) fn text(rt: &impl AllocGlobal, chars: &str) -> Result<Text, Fail> {
    Ok(Text::of(chars.chars().collect(rt.alloc())?))
}

fn report(rt: &impl AllocGlobal, job: u64) -> Report {
    Report {
        job,
        initial: false,
        pull: false,
        start: 0,
        end: 0,
        version: Text::of(Vec::new(rt.alloc())),
        outcome: Outcome::Success,
        total: 0,
        missed: 0,
        listed: Items::of(Vec::new(rt.alloc())),
        parts: Items::of(Vec::new(rt.alloc())),
    }
}

fn meta_with_server(rt: &impl AllocGlobal) -> Meta {
    let empty = Text::of(Vec::new(rt.alloc()));
    let peer = Peer {
        host: Text::of(Vec::new(rt.alloc())),
        port: 80,
    };
    let server = Server {
        https: false,
        peer,
        prefix: empty,
        key: Text::of(Vec::new(rt.alloc())),
    };
    Meta {
        server: Some(server),
        ..Meta::usual(rt.alloc())
    }
}

fn staged_alone(rt: &impl AllocGlobal, name: &str) -> Result<Option<Staged>, Fail> {
    let header = Bytes::of(HEADER.to_vec(rt.alloc())?);
    let part = part_of(rt.alloc(), text(rt, name)?, header)?;
    Ok(stored(rt.alloc(), vec![in rt.alloc(); part]?)?)
}

// The event of a word; that of a report is of the next job.
fn event(rt: &impl AllocGlobal, word: &str, next_job: u64) -> Result<Option<Event>, Fail> {
    Ok(match word {
        "init" => Some(Event::Init(7)),
        "meta" => Some(Event::SetMeta(meta_with_server(rt))),
        "usual" => Some(Event::SetMeta(Meta::usual(rt.alloc()))),
        "registered" => Some(Event::Registered),
        "promote" => Some(Event::Promote(report(rt, next_job))),
        "note" => Some(Event::Note(report(rt, next_job))),
        "ask" => Some(Event::AskReboot(report(rt, next_job))),
        "late" => Some(Event::Note(report(rt, 0))),
        "boot" => Some(Event::Boot),
        "sent" => Some(Event::Sent(1)),
        "drop-pending" => Some(Event::Remove(Stage::Pending)),
        "drop-current" => Some(Event::Remove(Stage::Current)),
        "drop-previous" => Some(Event::Remove(Stage::Previous)),
        "restore" => Some(Event::Restore),
        name => staged_alone(rt, name)?.map(Event::Stage),
    })
}

// The node after the events of these words, or why one of them is not allowed.
fn after(rt: &impl AllocGlobal, words: &str) -> Result<String, Fail> {
    let mut node = Node::new(rt.alloc());
    for word in words.split(' ') {
        let Some(event) = event(rt, word, node.next_job)? else {
            return Ok(format!(in rt.alloc(); "not staged")?);
        };
        if let Some(why) = node.why(&event) {
            return Ok(format!(in rt.alloc(); "{why:?}")?);
        }
        let supply = node.supply(rt.alloc(), &event)?;
        node = node.apply(event, supply);
    }
    shown(rt, &node)
}

fn shown(rt: &impl AllocGlobal, node: &Node) -> Result<String, Fail> {
    let mut line = format!(in rt.alloc(); "next {}", node.next_job)?;
    line.push_str(if node.registered { " registered" } else { "" })?;
    line.push_str(if node.reboot { " reboot" } else { "" })?;
    push_slot(&mut line, " pending ", &node.pending)?;
    push_slot(&mut line, " current ", &node.current)?;
    push_slot(&mut line, " previous ", &node.previous)?;
    for kept in node.reports.as_slice() {
        write!(
            line,
            " {}{}",
            kept.report.job,
            if kept.sent { "s" } else { "" }
        )?;
    }
    Ok(line)
}

fn push_slot(line: &mut String, word: &str, slot: &Option<SharedParts>) -> Result<(), Fail> {
    if let Some(parts) = slot {
        for part in parts.as_slice() {
            line.push_str(word)?;
            line.extend(part.name.as_slice().iter().copied())?;
        }
    }
    Ok(())
}

const SEVENTEEN: &str =
    "init A note note note note note note note note note note note note note note note note note";

fn rows() -> [(&'static str, &'static str); 44] {
    [
        ("init", "next 1"),
        ("init init", "HasAgent"),
        ("meta", "NoAgent"),
        ("init meta", "next 1"),
        ("registered", "NoAgent"),
        ("init registered", "NoServer"),
        ("init meta registered", "next 1 registered"),
        ("init meta registered meta", "next 1"),
        ("init meta usual registered", "NoServer"),
        ("A", "NoAgent"),
        ("init A", "next 1 pending A"),
        ("init A B", "next 1 pending B"),
        ("promote", "NoAgent"),
        ("init promote", "NoPending"),
        ("init A promote", "next 2 current A 1"),
        ("init A promote promote", "NoPending"),
        (
            "init A promote B promote",
            "next 3 current B previous A 1 2",
        ),
        (
            "init A promote B promote C promote",
            "next 4 current C previous B 1 2 3",
        ),
        ("note", "NoAgent"),
        ("init note", "NoDocument"),
        ("init A note", "next 2 pending A 1"),
        ("init A promote note", "next 3 current A 1 2"),
        ("init A late", "WrongJob"),
        ("init late", "NoDocument"),
        ("ask", "NoAgent"),
        ("init ask", "NoDocument"),
        ("init A ask", "next 2 reboot pending A 1"),
        ("init A ask boot", "next 2 pending A 1"),
        ("boot", "NoReboot"),
        ("init A ask boot boot", "NoReboot"),
        ("sent", "NoReport"),
        ("init A note sent", "next 2 pending A 1s"),
        ("init A note note sent", "next 3 pending A 1s 2"),
        ("init A note sent sent", "NoReport"),
        ("drop-pending", "NoAgent"),
        ("init drop-current", "next 1"),
        ("init A drop-pending", "next 1"),
        ("init A promote B drop-current", "next 2 pending B 1"),
        (
            "init A promote B promote drop-previous",
            "next 3 current B 1 2",
        ),
        ("restore", "NoPrevious"),
        ("init A promote restore", "NoPrevious"),
        (
            "init A promote B promote restore",
            "next 3 pending A current B previous A 1 2",
        ),
        (
            "init A promote B promote C restore",
            "next 3 pending A current B previous A 1 2",
        ),
        (
            SEVENTEEN,
            "next 18 pending A 2 3 4 5 6 7 8 9 10 11 12 13 14 15 16 17",
        ),
    ]
}

#[test]
fn events_change_a_node_by_their_rows(rt: HostRuntime) -> Result<(), Fail> {
    for (words, wanted) in rows() {
        assert_eq!(rt; after(&rt, words)?.as_str(), wanted, "{words}");
    }
    Ok(())
}
