use crate::runs::{Run, played};
use std::rt::HostRuntime;

// Runs, and what must be shown of them.
const RUNS: &[(Run<'static>, &str)] = &[
    (
        Run {
            connections: "3",
            peers: "put report fetch",
            store: "",
            object: "",
            call: 0,
        },
        "0|1 answer 204\n2 answer 200\n3 answer 200\n|HTTP/1.1 204 No Content|HTTP/1.1 200 OK|HTTP/1.1 200 OK",
    ),
    (
        Run {
            connections: "3",
            peers: "slow-put slow-report slow-fetch",
            store: "",
            object: "",
            call: 0,
        },
        "0|1 answer 204\n2 answer 200\n3 answer 200\n|HTTP/1.1 204 No Content|HTTP/1.1 200 OK|HTTP/1.1 200 OK",
    ),
    (
        Run {
            connections: "2",
            peers: "silent fetch",
            store: "",
            object: "",
            call: 0,
        },
        "0|1 torn 0\n2 answer 404\n||HTTP/1.1 404 Not Found",
    ),
    (
        Run {
            connections: "2",
            peers: "front no-request",
            store: "",
            object: "",
            call: 0,
        },
        "0|1 torn 5\n2 answer 400\n||HTTP/1.1 400 Bad Request",
    ),
    (
        Run {
            connections: "2",
            peers: "unread fetch",
            store: "",
            object: "",
            call: 0,
        },
        "0|1 read fault\n2 answer 404\n||HTTP/1.1 404 Not Found",
    ),
    (
        Run {
            connections: "2",
            peers: "unwritten fetch",
            store: "",
            object: "",
            call: 0,
        },
        "0|1 write fault\n2 answer 404\n|HTTP/1.1 4|HTTP/1.1 404 Not Found",
    ),
    (
        Run {
            connections: "3",
            peers: "fetch",
            store: "",
            object: "",
            call: 0,
        },
        "4|1 answer 404\nrefused DoorFault\n|HTTP/1.1 404 Not Found",
    ),
    (
        Run {
            connections: "2",
            peers: "fetch fetch",
            store: "",
            object: "door",
            call: 0,
        },
        "4|refused DoorFault\n",
    ),
    (
        Run {
            connections: "1",
            peers: "fetch fetch",
            store: "",
            object: "",
            call: 0,
        },
        "0|1 answer 404\n|HTTP/1.1 404 Not Found",
    ),
    (
        Run {
            connections: "2",
            peers: "fetch fetch",
            store: "",
            object: "output",
            call: 1,
        },
        "4|1 answer 404\n|HTTP/1.1 404 Not Found|HTTP/1.1 404 Not Found",
    ),
    (
        Run {
            connections: "1",
            peers: "fetch",
            store: "",
            object: "output",
            call: 0,
        },
        "4||HTTP/1.1 404 Not Found",
    ),
    (
        Run {
            connections: "1",
            peers: "",
            store: "no store of a server",
            object: "output",
            call: 0,
        },
        "5|",
    ),
    (
        Run {
            connections: "1",
            peers: "fetch",
            store: "no store of a server",
            object: "",
            call: 0,
        },
        "5|refused NotAStore 0\n",
    ),
    (
        Run {
            connections: "0",
            peers: "fetch",
            store: "",
            object: "",
            call: 0,
        },
        "2|refused Usage\n",
    ),
    (
        Run {
            connections: "",
            peers: "fetch",
            store: "",
            object: "",
            call: 0,
        },
        "2|refused Usage\n",
    ),
    (
        Run {
            connections: "1",
            peers: "fetch",
            store: "",
            object: "disk",
            call: 0,
        },
        "4|refused DiskFault\n",
    ),
];

#[test]
fn runs_end_as_their_objects_let_them(rt: HostRuntime) {
    for (place, (run, wanted)) in RUNS.iter().enumerate() {
        match played(rt.alloc(), run) {
            Ok(shown) => assert_eq!(rt; shown.as_slice(), wanted.as_bytes(), "run {place}"),
            Err(_) => assert!(rt; false, "run {place}"),
        }
    }
}

// A registration and two reports over a disk whose call of that number fails.
fn broken(call: u64) -> Run<'static> {
    Run {
        connections: "3",
        peers: "put report report",
        store: "",
        object: "disk",
        call,
    }
}

// What is shown of it, by how far it came.
const BROKEN: &[&str] = &[
    "0|1 answer 204\n2 answer 200\n3 answer 200\n|HTTP/1.1 204 No Content|HTTP/1.1 200 OK|HTTP/1.1 200 OK",
    "4|1 answer 204\n2 answer 200\n3 disk fault\nrefused DiskFault\n|HTTP/1.1 204 No Content|HTTP/1.1 200 OK|HTTP/1.1 500 Internal Server Error",
    "4|1 answer 204\n2 disk fault\nrefused DiskFault\n|HTTP/1.1 204 No Content|HTTP/1.1 500 Internal Server Error",
    "4|1 disk fault\nrefused DiskFault\n|HTTP/1.1 500 Internal Server Error",
    "4|refused DiskFault\n",
];

#[test]
fn a_disk_that_fails_ends_the_run(rt: HostRuntime) {
    let mut reached = [false; 5];
    for call in 0..40 {
        let shown = match played(rt.alloc(), &broken(call)) {
            Ok(shown) => shown,
            Err(_) => return assert!(rt; false, "call {call}"),
        };
        match BROKEN
            .iter()
            .position(|wanted| shown.as_slice() == wanted.as_bytes())
        {
            Some(place) => reached[place] = true,
            None => assert!(rt; false, "call {call}"),
        }
    }
    assert_eq!(rt; reached, [true; 5]);
}
