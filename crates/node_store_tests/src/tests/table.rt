//! Each event in each state that the conditions distinguish: what the store then keeps, or why the event is not allowed.
use crate::{added_of, file_of, kept_in, run};
use node_state::Why;
use node_store::StoreError;
use std::alloc::Global;
use std::test::Fail;

// The events of these words lead to a state; there each of these is not allowed, for this reason.
const REFUSED: &[(&str, Why, &str)] = &[
    (
        "",
        Why::NoAgent,
        "meta usual registered C promote late-promote note late-note ask late-ask drop-pending drop-current drop-previous",
    ),
    ("", Why::NoReboot, "boot"),
    ("", Why::NoReport, "sent"),
    ("", Why::NoPrevious, "restore"),
    ("init", Why::HasAgent, "init"),
    ("init", Why::NoServer, "registered"),
    ("init", Why::NoPending, "promote late-promote"),
    ("init", Why::NoDocument, "note late-note ask late-ask"),
    ("init", Why::NoReboot, "boot"),
    ("init", Why::NoReport, "sent"),
    ("init", Why::NoPrevious, "restore"),
    ("init meta", Why::HasAgent, "init"),
    ("init meta", Why::NoPending, "promote late-promote"),
    ("init meta", Why::NoDocument, "note late-note ask late-ask"),
    ("init meta", Why::NoReboot, "boot"),
    ("init meta", Why::NoReport, "sent"),
    ("init meta", Why::NoPrevious, "restore"),
    ("init meta registered", Why::HasAgent, "init"),
    (
        "init meta registered",
        Why::NoPending,
        "promote late-promote",
    ),
    (
        "init meta registered",
        Why::NoDocument,
        "note late-note ask late-ask",
    ),
    ("init meta registered", Why::NoReboot, "boot"),
    ("init meta registered", Why::NoReport, "sent"),
    ("init meta registered", Why::NoPrevious, "restore"),
    ("init A", Why::HasAgent, "init"),
    ("init A", Why::NoServer, "registered"),
    ("init A", Why::WrongJob, "late-promote late-note late-ask"),
    ("init A", Why::NoReboot, "boot"),
    ("init A", Why::NoReport, "sent"),
    ("init A", Why::NoPrevious, "restore"),
    ("init A promote", Why::HasAgent, "init"),
    ("init A promote", Why::NoServer, "registered"),
    ("init A promote", Why::NoPending, "promote late-promote"),
    ("init A promote", Why::WrongJob, "late-note late-ask"),
    ("init A promote", Why::NoReboot, "boot"),
    ("init A promote", Why::NoPrevious, "restore"),
    ("init A promote B", Why::HasAgent, "init"),
    ("init A promote B", Why::NoServer, "registered"),
    (
        "init A promote B",
        Why::WrongJob,
        "late-promote late-note late-ask",
    ),
    ("init A promote B", Why::NoReboot, "boot"),
    ("init A promote B", Why::NoPrevious, "restore"),
    ("init A promote B promote", Why::HasAgent, "init"),
    ("init A promote B promote", Why::NoServer, "registered"),
    (
        "init A promote B promote",
        Why::NoPending,
        "promote late-promote",
    ),
    (
        "init A promote B promote",
        Why::WrongJob,
        "late-note late-ask",
    ),
    ("init A promote B promote", Why::NoReboot, "boot"),
    ("init A ask", Why::HasAgent, "init"),
    ("init A ask", Why::NoServer, "registered"),
    (
        "init A ask",
        Why::WrongJob,
        "late-promote late-note late-ask",
    ),
    ("init A ask", Why::NoPrevious, "restore"),
    ("init A note sent", Why::HasAgent, "init"),
    ("init A note sent", Why::NoServer, "registered"),
    (
        "init A note sent",
        Why::WrongJob,
        "late-promote late-note late-ask",
    ),
    ("init A note sent", Why::NoReboot, "boot"),
    ("init A note sent", Why::NoReport, "sent"),
    ("init A note sent", Why::NoPrevious, "restore"),
];

// What a new store keeps after the events of these words.
const ALLOWED: &[(&str, &str)] = &[
    ("init", "agent job 1"),
    ("init meta", "agent server job 1"),
    ("init usual", "agent job 1"),
    ("init C", "agent pending C job 1"),
    ("init drop-pending", "agent job 1"),
    ("init drop-current", "agent job 1"),
    ("init drop-previous", "agent job 1"),
    ("init meta meta", "agent server job 1"),
    ("init meta usual", "agent job 1"),
    ("init meta registered", "agent server registered job 1"),
    ("init meta C", "agent server pending C job 1"),
    ("init meta drop-pending", "agent server job 1"),
    ("init meta drop-current", "agent server job 1"),
    ("init meta drop-previous", "agent server job 1"),
    ("init meta registered meta", "agent server job 1"),
    ("init meta registered usual", "agent job 1"),
    (
        "init meta registered registered",
        "agent server registered job 1",
    ),
    (
        "init meta registered C",
        "agent server registered pending C job 1",
    ),
    (
        "init meta registered drop-pending",
        "agent server registered job 1",
    ),
    (
        "init meta registered drop-current",
        "agent server registered job 1",
    ),
    (
        "init meta registered drop-previous",
        "agent server registered job 1",
    ),
    ("init A meta", "agent server pending A job 1"),
    ("init A usual", "agent pending A job 1"),
    ("init A C", "agent pending C job 1"),
    ("init A promote", "agent current A r1 job 2"),
    ("init A note", "agent pending A r1 job 2"),
    ("init A ask", "agent reboot pending A r1 job 2"),
    ("init A drop-pending", "agent job 1"),
    ("init A drop-current", "agent pending A job 1"),
    ("init A drop-previous", "agent pending A job 1"),
    ("init A promote meta", "agent server current A r1 job 2"),
    ("init A promote usual", "agent current A r1 job 2"),
    ("init A promote C", "agent pending C current A r1 job 2"),
    ("init A promote note", "agent current A r1 r2 job 3"),
    ("init A promote ask", "agent reboot current A r1 r2 job 3"),
    ("init A promote sent", "agent current A s1 job 2"),
    ("init A promote drop-pending", "agent current A r1 job 2"),
    ("init A promote drop-current", "agent r1 job 2"),
    ("init A promote drop-previous", "agent current A r1 job 2"),
    (
        "init A promote B meta",
        "agent server pending B current A r1 job 2",
    ),
    (
        "init A promote B usual",
        "agent pending B current A r1 job 2",
    ),
    ("init A promote B C", "agent pending C current A r1 job 2"),
    (
        "init A promote B promote",
        "agent current B previous A r1 r2 job 3",
    ),
    (
        "init A promote B note",
        "agent pending B current A r1 r2 job 3",
    ),
    (
        "init A promote B ask",
        "agent reboot pending B current A r1 r2 job 3",
    ),
    (
        "init A promote B sent",
        "agent pending B current A s1 job 2",
    ),
    ("init A promote B drop-pending", "agent current A r1 job 2"),
    ("init A promote B drop-current", "agent pending B r1 job 2"),
    (
        "init A promote B drop-previous",
        "agent pending B current A r1 job 2",
    ),
    (
        "init A promote B promote meta",
        "agent server current B previous A r1 r2 job 3",
    ),
    (
        "init A promote B promote usual",
        "agent current B previous A r1 r2 job 3",
    ),
    (
        "init A promote B promote C",
        "agent pending C current B previous A r1 r2 job 3",
    ),
    (
        "init A promote B promote note",
        "agent current B previous A r1 r2 r3 job 4",
    ),
    (
        "init A promote B promote ask",
        "agent reboot current B previous A r1 r2 r3 job 4",
    ),
    (
        "init A promote B promote sent",
        "agent current B previous A s1 r2 job 3",
    ),
    (
        "init A promote B promote drop-pending",
        "agent current B previous A r1 r2 job 3",
    ),
    (
        "init A promote B promote drop-current",
        "agent previous A r1 r2 job 3",
    ),
    (
        "init A promote B promote drop-previous",
        "agent current B r1 r2 job 3",
    ),
    (
        "init A promote B promote restore",
        "agent pending A current B previous A r1 r2 job 3",
    ),
    ("init A ask meta", "agent server reboot pending A r1 job 2"),
    ("init A ask usual", "agent reboot pending A r1 job 2"),
    ("init A ask C", "agent reboot pending C r1 job 2"),
    ("init A ask promote", "agent reboot current A r1 r2 job 3"),
    ("init A ask note", "agent reboot pending A r1 r2 job 3"),
    ("init A ask ask", "agent reboot pending A r1 r2 job 3"),
    ("init A ask boot", "agent pending A r1 job 2"),
    ("init A ask sent", "agent reboot pending A s1 job 2"),
    ("init A ask drop-pending", "agent reboot r1 job 2"),
    ("init A ask drop-current", "agent reboot pending A r1 job 2"),
    (
        "init A ask drop-previous",
        "agent reboot pending A r1 job 2",
    ),
    ("init A note sent meta", "agent server pending A s1 job 2"),
    ("init A note sent usual", "agent pending A s1 job 2"),
    ("init A note sent C", "agent pending C s1 job 2"),
    ("init A note sent promote", "agent current A s1 r2 job 3"),
    ("init A note sent note", "agent pending A s1 r2 job 3"),
    ("init A note sent ask", "agent reboot pending A s1 r2 job 3"),
    ("init A note sent drop-pending", "agent s1 job 2"),
    ("init A note sent drop-current", "agent pending A s1 job 2"),
    ("init A note sent drop-previous", "agent pending A s1 job 2"),
];

// Whether the event is refused in this state, with no call of the disk and with the node as it was.
fn is_refused(alloc: Global, state: &str, why: Why, word: &str) -> Result<bool, StoreError> {
    let before = run(alloc, state, "")?;
    let after = run(alloc, state, word)?;
    let is_same = after.line == before.line && after.bytes == before.bytes;
    let is_untouched = is_same && after.calls == before.calls;
    Ok(is_untouched && before.answer == Ok(()) && after.answer == Err(StoreError::NotAllowed(why)))
}

#[test]
fn an_event_is_not_allowed_for_its_first_condition_that_fails(rt: HostRuntime) -> Result<(), Fail> {
    for (state, why, words) in REFUSED {
        for word in words.split(' ') {
            assert!(rt;
                is_refused(rt.alloc(), state, *why, word)?,
                "{state} {word}"
            );
        }
    }
    Ok(())
}

// Whether the store keeps this, in memory and on its disk, which has the bytes of format 2.
fn is_kept(alloc: Global, words: &str, wanted: &str) -> Result<bool, StoreError> {
    let left = run(alloc, words, "")?;
    let is_done = left.answer == Ok(()) && left.line.as_str() == wanted;
    let is_written = left.bytes == file_of(alloc, &added_of(alloc, words, "")?)?;
    Ok(is_done && is_written && kept_in(alloc, left.bytes)?.as_str() == wanted)
}

#[test]
fn an_event_makes_its_change(rt: HostRuntime) -> Result<(), Fail> {
    for (words, wanted) in ALLOWED {
        assert!(rt; is_kept(rt.alloc(), words, wanted)?, "{words}");
    }
    Ok(())
}
