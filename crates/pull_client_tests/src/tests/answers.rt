//! Answers that are refused, the first reason of several, and what comes without an answer.
use super::calls::{Call, Wanted, answers, answers_over, link};
use super::made::{PLAIN, Site};
use memory_outside::MemoryLink;
use std::alloc::Global;

const CALLS: [Call; 5] = [
    Call::Register,
    Call::Ask(&["Web"]),
    Call::Fetch("Web"),
    Call::FetchModule,
    Call::Report,
];

const HTTPS: Site = (true, "pull.example", 443, "/PSDSCPullServer.svc", "k");

// An answer to any call, and why it is refused. Where several reasons hold, the first wins.
const REFUSED: &[(&'static str, Wanted)] = &[
    ("", Err("Frame(Torn { at: 0 })")),
    ("HTTP/1.1 200 OK\r\n", Err("Frame(Torn { at: 17 })")),
    (
        "HTTP/1.1 404 Not Found\r\nContent-Length: 5\r\n\r\nabcd",
        Err("Frame(Torn { at: 49 })"),
    ),
    (
        "HTTP/1.1 404 Not Found\r\nContent-Length: 5\r\nContent-Length: 5\r\n\r\nabcde",
        Err("Frame(Length)"),
    ),
    (
        "HTTP/1.1 200 OK\r\nContent-Length: 3\r\nTransfer-Encoding: chunked\r\n\r\nabc",
        Err("Frame(Length)"),
    ),
    (
        "HTTP/1.1 200 OK\r\nContent-Length: -3\r\n\r\nabc",
        Err("Frame(Length)"),
    ),
    (
        "HTTP/1.1 200 OK\r\nContent-Length: 3a\r\n\r\nabc",
        Err("Frame(Length)"),
    ),
    (
        "HTTP/1.1 200 OK\r\nContent-Length: 00000000003\r\n\r\nabc",
        Err("Frame(Length)"),
    ),
    (
        "HTTP/1.1 200 OK\r\nContent-Length: 67108865\r\n\r\nabc",
        Err("Frame(BodyTooLong)"),
    ),
    (
        "HTTP/1.1 200 OK\r\nTransfer-Encoding: gzip\r\n\r\n",
        Err("Frame(Coding)"),
    ),
    (
        "HTTP/1.1 200 OK\r\nTransfer-Encoding: chunked\r\nTransfer-Encoding: chunked\r\n\r\n0\r\n\r\n",
        Err("Frame(Coding)"),
    ),
    (
        "HTTP/1.1 200 OK\r\nContent-Encoding: gzip\r\n\r\n",
        Err("Frame(Coding)"),
    ),
    (
        "HTTP/1.1 200 OK\r\nTransfer-Encoding: chunked\r\n\r\nx",
        Err("Frame(Chunk { at: 47 })"),
    ),
    ("HTTP/2 200 OK\r\n\r\n", Err("Frame(Head)")),
    ("HTTP/1.1 2x0 OK\r\n\r\n", Err("Frame(Head)")),
    (
        "HTTP/1.1 404 Not Found\r\nChecksumAlgorithm: MD5\r\n\r\n{",
        Err("Status { code: 404 }"),
    ),
    (
        "HTTP/1.1 100 Continue\r\n\r\nHTTP/1.1 401 Unauthorized\r\n\r\n",
        Err("Status { code: 401 }"),
    ),
    (
        "HTTP/1.1 100 Continue\r\n\r\n",
        Err("Frame(Torn { at: 25 })"),
    ),
];

#[test]
fn what_is_no_accepted_answer_is_refused(rt: HostRuntime) {
    for (answer, wanted) in REFUSED {
        for call in CALLS {
            assert!(rt;
                answers(rt.alloc(), call, &PLAIN, answer.as_bytes(), wanted),
                "{answer}"
            );
        }
    }
}

// What each call is answered under a code that is accepted, with `{}` as the body, which 204 has not.
fn accepted(code: u32) -> [Wanted; 5] {
    let message = if code == 204 {
        Err("Message(Json)")
    } else {
        Err("Message(Missing(NodeStatus))")
    };
    [
        Ok("done"),
        message,
        Err("NoChecksum"),
        Err("NoChecksum"),
        Ok("done"),
    ]
}

// Returns whether the code is answered so, with `{}` as the body. An answer of 100 to 199 comes before another.
fn is_answered(alloc: Global, call: Call, wanted: &Wanted, code: u32) -> bool {
    let Ok(answer) = format!(in alloc; "HTTP/1.1 {code} A\r\n\r\n{{}}") else {
        return false;
    };
    let Ok(status) = format!(in alloc; "Status {{ code: {code} }}") else {
        return false;
    };
    match code {
        200 | 201 | 204 => answers(alloc, call, &PLAIN, answer.as_bytes(), wanted),
        100..200 => answers(alloc, call, &PLAIN, answer.as_bytes(), &Err("Frame(Head)")),
        _ => answers(
            alloc,
            call,
            &PLAIN,
            answer.as_bytes(),
            &Err(status.as_str()),
        ),
    }
}

#[test]
fn three_codes_are_accepted(rt: HostRuntime) {
    for code in 100..600u32 {
        for (call, wanted) in CALLS.into_iter().zip(accepted(code)) {
            assert!(rt; is_answered(rt.alloc(), call, &wanted, code), "{code}");
        }
    }
}

fn sends_nothing(alloc: Global, call: Call) -> bool {
    match link(alloc, b"HTTP/1.1 200 OK\r\n\r\n") {
        Ok(mut link) => {
            answers_over(alloc, &mut link, call, &HTTPS, &Err("NotServed"))
                && link.exchanges().is_empty()
        }
        Err(_) => false,
    }
}

#[test]
fn a_server_of_https_is_sent_nothing(rt: HostRuntime) {
    for call in CALLS {
        assert!(rt; sends_nothing(rt.alloc(), call));
    }
}

// A link that has no answers, and one whose first call fails.
fn fails(alloc: Global, call: Call) -> bool {
    let mut failing = Vec::new(alloc);
    if failing.push(0).is_err() {
        return false;
    }
    let mut none = MemoryLink::new(Vec::new(alloc), Vec::new(alloc));
    let mut broken = MemoryLink::new(Vec::new(alloc), failing);
    answers_over(alloc, &mut none, call, &PLAIN, &Err("Link"))
        && answers_over(alloc, &mut broken, call, &PLAIN, &Err("Link"))
}

#[test]
fn a_link_that_fails_gives_no_answer(rt: HostRuntime) {
    for call in CALLS {
        assert!(rt; fails(rt.alloc(), call));
    }
}

// Returns whether an answer of that many bytes, with no head in them, is refused so.
fn is_refused_at(alloc: Global, size: usize, wanted: &Wanted) -> bool {
    let mut answer = Vec::new(alloc);
    answer.resize(size, b'x').is_ok() && answers(alloc, Call::Report, &PLAIN, &answer, wanted)
}

#[test]
fn an_answer_has_a_limit(rt: HostRuntime) {
    let rows = [(20_000, Err("Frame(Head)")), (67_108_864, Err("TooLong"))];
    for (size, wanted) in rows {
        assert!(rt; is_refused_at(rt.alloc(), size, &wanted), "{size}");
    }
}
