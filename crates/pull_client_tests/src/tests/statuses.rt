//! Answers to queries. A part is held under `Web`, and none under any other name.
use super::calls::{Call, Wanted, answers};
use super::made::PLAIN;
use std::alloc::Global;

const WEB: &[&str] = &["Web"];

const TWO: &[&str] = &["Web", "App"];

const WEB_UNCOVERED: Wanted = Err("Uncovered { name: Text { chars: ['W', 'e', 'b'] } }");

const APP_UNCOVERED: Wanted = Err("Uncovered { name: Text { chars: ['A', 'p', 'p'] } }");

const WEB_RETRY: Wanted = Err("Retry { name: Text { chars: ['W', 'e', 'b'] } }");

// The names that are asked, the body of the answer, and what is answered.
const STATUSES: &[(&'static [&'static str], &'static str, Wanted)] = &[
    (WEB, r#"{"NodeStatus":"Ok"}"#, Ok("[false]")),
    (WEB, r#"{"NodeStatus":"oK","Details":[]}"#, Ok("[false]")),
    (
        WEB,
        r#"{"NodeStatus":"getconfiguration","Details":null}"#,
        Ok("[true]"),
    ),
    (WEB, r#"{"NodeStatus":"GETCONFIGURATION"}"#, Ok("[true]")),
    (WEB, r#"{"NodeStatus":"RETRY"}"#, WEB_RETRY),
    (WEB, r#"{"NodeStatus":"retry"}"#, WEB_RETRY),
    (
        WEB,
        r#"{"NodeStatus":"UpdateMetaConfiguration"}"#,
        WEB_UNCOVERED,
    ),
    (WEB, r#"{"NodeStatus":""}"#, WEB_UNCOVERED),
    (WEB, r#"{"NodeStatus":"Ok "}"#, WEB_UNCOVERED),
    (WEB, r#"{"NodeStatus":"O\u212a"}"#, WEB_UNCOVERED),
    (
        WEB,
        r#"{"NodeStatus":"RETRY","Details":[{"ConfigurationName":"Web","Status":"GeTcOnFiGuRaTiOn"}]}"#,
        Ok("[true]"),
    ),
    (
        WEB,
        r#"{"NodeStatus":"RETRY","Details":[{"Status":"Ok"}]}"#,
        Ok("[false]"),
    ),
    (
        WEB,
        r#"{"NodeStatus":"RETRY","Details":[{"ConfigurationName":"","Status":"Ok"},{"ConfigurationName":"Web","Status":"RETRY"}]}"#,
        Ok("[false]"),
    ),
    (
        WEB,
        r#"{"NodeStatus":"Ok","Details":[{"ConfigurationName":"web","Status":"RETRY"}]}"#,
        Ok("[false]"),
    ),
    (
        WEB,
        r#"{"NodeStatus":"Ok","Details":[{"ConfigurationName":"Web","Status":"Other"}]}"#,
        WEB_UNCOVERED,
    ),
    (
        WEB,
        r#"{"NodeStatus":"Ok","Details":[{"ConfigurationName":"Web","Status":"RETRY"},{"ConfigurationName":"Web","Status":"Ok"}]}"#,
        WEB_RETRY,
    ),
    (&["App"], r#"{"NodeStatus":"Ok"}"#, APP_UNCOVERED),
    (
        &["App"],
        r#"{"NodeStatus":"GetConfiguration"}"#,
        Ok("[true]"),
    ),
    (TWO, r#"{"NodeStatus":"GetConfiguration"}"#, WEB_UNCOVERED),
    (
        TWO,
        r#"{"NodeStatus":"Ok","Details":[{"ConfigurationName":"App","Status":"GetConfiguration"},{"ConfigurationName":"Web","Status":"Ok"}]}"#,
        Ok("[false, true]"),
    ),
    (
        TWO,
        r#"{"NodeStatus":"Ok","Details":[{"ConfigurationName":"Web","Status":"Ok"},{"Status":"GetConfiguration"}]}"#,
        APP_UNCOVERED,
    ),
    (
        TWO,
        r#"{"NodeStatus":"Ok","Details":[{"ConfigurationName":"App","Status":"RETRY"}]}"#,
        WEB_UNCOVERED,
    ),
    (
        TWO,
        r#"{"NodeStatus":"Ok","Details":[{"ConfigurationName":"App","Status":"Other"},{"ConfigurationName":"Web","Status":"RETRY"}]}"#,
        WEB_RETRY,
    ),
    (&[], r#"{"NodeStatus":"RETRY"}"#, Ok("[]")),
    (
        &["", "Web"],
        r#"{"NodeStatus":"Ok","Details":[{"Status":"GetConfiguration"},{"ConfigurationName":"Web","Status":"Ok"}]}"#,
        Ok("[true, false]"),
    ),
    (WEB, "", Err("Message(Json)")),
    (WEB, r#"{"NodeStatus":"Ok"}{}"#, Err("Message(Json)")),
    (WEB, "[]", Err("Message(Wrong(Body))")),
    (WEB, "{}", Err("Message(Missing(NodeStatus))")),
    (
        WEB,
        r#"{"NodeStatus":null}"#,
        Err("Message(Missing(NodeStatus))"),
    ),
    (
        WEB,
        r#"{"NodeStatus":1,"Details":1}"#,
        Err("Message(Wrong(NodeStatus))"),
    ),
    (
        WEB,
        r#"{"NodeStatus":"Ok","Details":{}}"#,
        Err("Message(Wrong(Details))"),
    ),
    (
        WEB,
        r#"{"NodeStatus":"Ok","Details":[{}]}"#,
        Err("Message(Missing(Status))"),
    ),
    (
        WEB,
        r#"{"NodeStatus":"Ok","Details":[{"Status":1},{"ConfigurationName":1,"Status":"Ok"}]}"#,
        Err("Message(Wrong(ConfigurationName))"),
    ),
];

// Returns whether the body says that of the names.
fn tells(alloc: Global, names: &'static [&'static str], body: &str, wanted: &Wanted) -> bool {
    match format!(in alloc; "HTTP/1.1 200 OK\r\n\r\n{body}") {
        Ok(answer) => answers(alloc, Call::Ask(names), &PLAIN, answer.as_bytes(), wanted),
        Err(_) => false,
    }
}

#[test]
fn statuses_are_told(rt: HostRuntime) {
    for (names, body, wanted) in STATUSES {
        assert!(rt; tells(rt.alloc(), *names, body, wanted), "{body}");
    }
}
