//! Answers that are cut at each byte.
use super::calls::{Call, answers};
use super::made::PLAIN;
use std::alloc::Global;

// A call, an answer that it accepts, and what it gives of it.
const WHOLE_ANSWERS: &[(Call, &'static str, &'static str)] = &[
    (
        Call::Register,
        "HTTP/1.1 204 No Content\r\nConnection: close\r\nProtocolVersion: 2.0\r\n\r\n",
        "done",
    ),
    (
        Call::Ask(&["Web"]),
        "HTTP/1.1 200 OK\r\nContent-Type: application/json\r\nContent-Length: 22\r\n\r\n{\"NodeStatus\":   \"Ok\"}",
        "[false]",
    ),
    (
        Call::Fetch("Web"),
        "HTTP/1.1 200 OK\r\nChecksum: BA7816BF8F01CFEA414140DE5DAE2223B00361A396177A9CB410FF61F20015AD\r\nContent-Length: 3\r\n\r\nabc",
        "abc",
    ),
    (
        Call::FetchModule,
        "HTTP/1.1 200 OK\r\nTransfer-Encoding: chunked\r\nChecksum: BA7816BF8F01CFEA414140DE5DAE2223B00361A396177A9CB410FF61F20015AD\r\n\r\n1\r\na\r\n2;x=y\r\nbc\r\n0\r\nT: u\r\n\r\n",
        "abc",
    ),
    (
        Call::Report,
        "HTTP/1.1 200 OK\r\nContent-Length: 0\r\n\r\n",
        "done",
    ),
];

#[test]
fn whole_answers_are_accepted(rt: HostRuntime) {
    for (call, answer, wanted) in WHOLE_ANSWERS {
        assert!(rt;
            answers(rt.alloc(), *call, &PLAIN, answer.as_bytes(), &Ok(*wanted)),
            "{answer}"
        );
    }
}

// Returns whether the bytes end inside an answer.
fn is_torn(alloc: Global, call: Call, front: &[u8]) -> bool {
    match format!(in alloc; "Frame(Torn {{ at: {} }})", front.len()) {
        Ok(torn) => answers(alloc, call, &PLAIN, front, &Err(torn.as_str())),
        Err(_) => false,
    }
}

#[test]
fn each_front_of_an_answer_is_torn(rt: HostRuntime) {
    for (call, answer, _) in WHOLE_ANSWERS {
        for at in 0..answer.len() {
            let front = &answer.as_bytes()[..at];
            assert!(rt; is_torn(rt.alloc(), *call, front), "{at}");
        }
    }
}
