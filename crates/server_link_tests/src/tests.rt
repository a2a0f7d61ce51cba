mod connections;

use crate::calls::{Call, new_link, outcome, shelf};
use dsc_outside::Link;
use memory_outside::MemoryDisk;
use pull_client::PeerError;
use pull_outside::MemoryShelf;
use pull_serving::ServerLink;
use std::alloc::Global;
use std::rt::HostRuntime;

// The SHA-256 digest of `abc` (FIPS 180-4).
const ABC: [u8; 32] = [
    0xba, 0x78, 0x16, 0xbf, 0x8f, 0x01, 0xcf, 0xea, 0x41, 0x41, 0x40, 0xde, 0x5d, 0xae, 0x22, 0x23,
    0xb0, 0x03, 0x61, 0xa3, 0x96, 0x17, 0x7a, 0x9c, 0xb4, 0x10, 0xff, 0x61, 0xf2, 0x00, 0x15, 0xad,
];

// Calls in order, and what each answers; an error as `Debug` writes it.
type Rows = &'static [(Call, &'static str)];

// Over a shelf that has `abc`.
const FIRST: Rows = &[
    (Call::Ask([0; 32]), "Status { code: 404 }"),
    (Call::Report, "Status { code: 404 }"),
    (Call::Register, "done"),
    (Call::Ask([0; 32]), "[true]"),
    (Call::Fetch("Web"), "abc"),
    (Call::Fetch("Other"), "Status { code: 404 }"),
    (Call::Ask(ABC), "[false]"),
    (Call::Report, "done"),
];

// After the content on the shelf was changed to `abd`; the registration stays.
const SECOND: Rows = &[
    (Call::Ask(ABC), "[true]"),
    (Call::Fetch("Web"), "abd"),
    (Call::Report, "done"),
];

fn is_answered<L: Link>(alloc: Global, link: &mut L, call: Call, wanted: &str) -> bool {
    match outcome(alloc, link, call) {
        Ok(text) => text.as_str() == wanted,
        Err(error) => is_error(alloc, &error, wanted),
    }
}

fn is_error(alloc: Global, error: &PeerError, wanted: &str) -> bool {
    match format!(in alloc; "{error:?}") {
        Ok(text) => text.as_str() == wanted,
        Err(_) => false,
    }
}

// The place of the first row that is answered otherwise.
fn first_other<L: Link>(alloc: Global, link: &mut L, rows: Rows) -> Option<usize> {
    for (place, (call, wanted)) in rows.iter().enumerate() {
        if !is_answered(alloc, link, *call, wanted) {
            return Some(place);
        }
    }
    None
}

// The link with the same store and disk, over a shelf that has this content.
fn changed(
    alloc: Global,
    link: ServerLink<MemoryDisk, MemoryShelf>,
    content: &[u8],
) -> Option<ServerLink<MemoryDisk, MemoryShelf>> {
    let (store, disk, _) = link.into_parts();
    match shelf(alloc, content) {
        Ok(shelf) => Some(ServerLink::new(alloc, store, disk, shelf)),
        Err(_) => None,
    }
}

#[test]
fn a_node_calls_a_server_whose_shelf_changes(rt: HostRuntime) {
    let alloc = rt.alloc();
    let Ok(mut link) = new_link(alloc, b"abc") else {
        panic!(rt; "no link");
    };
    assert_eq!(rt; first_other(alloc, &mut link, FIRST), None);
    assert_eq!(rt; link.exchanges().len(), FIRST.len());
    let Some(mut link) = changed(alloc, link, b"abd") else {
        panic!(rt; "no link");
    };
    assert_eq!(rt; first_other(alloc, &mut link, SECOND), None);
    assert_eq!(rt; link.exchanges().len(), SECOND.len());
}
