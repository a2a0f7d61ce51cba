//! Bodies that are cut.
use crate::body_of;
use node_store::read_body;
use std::alloc::Global;
use std::test::Fail;
use store_fields::FieldError;

// A body of each kind.
const KINDS: &[&str] = &[
    "init",
    "usual",
    "registered",
    "A",
    "promote",
    "note",
    "ask",
    "boot",
    "sent",
    "drop-pending",
    "restore",
    "usual:5",
    "pending:P",
    "kept:3",
];

// Whether the bytes are the body of something, or no answer is given.
fn is_read(alloc: Global, body: &[u8]) -> bool {
    match read_body(alloc, body) {
        Ok(_) | Err(FieldError::Memory) => true,
        Err(FieldError::Wrong) => false,
    }
}

// The first length to which a body is cut and read.
fn first_read(alloc: Global, body: &[u8]) -> Option<usize> {
    for length in 0..body.len() + 1 {
        if is_read(alloc, &body[..length]) {
            return Some(length);
        }
    }
    None
}

#[test]
fn a_body_that_is_cut_is_of_nothing(rt: HostRuntime) -> Result<(), Fail> {
    for word in KINDS {
        let body = body_of(rt.alloc(), word, 1)?;
        assert_eq!(rt; first_read(rt.alloc(), &body), Some(body.len()), "{word}");
    }
    Ok(())
}
