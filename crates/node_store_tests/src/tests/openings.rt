//! Files that are opened as stores of a node.
use crate::{bodies_of, file_of, kept_in, place_of};
use node_store::StoreError;
use std::alloc::{AllocError, Global};
use std::test::Fail;

/// Bytes of a file, and the byte at which no store of a node stands, or what the store keeps.
type Row<'a> = (&'a [u8], Result<&'a str, u64>);

const FILES: &[Row<'_>] = &[
    (b"", Ok("job 1")),
    (b"123456789", Ok("job 1")),
    (b"\xFF\xFF\xFF\xFF\xFF\xFF\xFF\xFF\xFF\xFF", Err(0)),
    (b"DSCSTOR9\0abc", Ok("job 1")),
    (b"DSCSTOR1\xA5\0", Err(10)),
    (b"DSCSTOR1\xA5\0\0\0\x11\x01\0\0", Err(16)),
    (b"DSCSTOR1\xA5\0\0\0\x11\x01\0\0\0\0\0\0\0\0\0\0\0", Err(25)),
    (
        b"DSCSTOR1\xA5\0\0\0\x11\x01\0\0\0\0\0\0\0\0\0\0\0\0\0\0\0\x10\xA5\0\0\0\0\0",
        Err(35),
    ),
    (
        b"DSCSTOR1\xA5\0\0\0\x11\x01\0\0\0\0\0\0\0\0\0\0\0\0\0\0\0\x10\xA5\0\0\0\x02\x02x\0",
        Err(35),
    ),
    (
        b"DSCSTOR1\xA5\0\0\0\x11\x01\0\0\0\0\0\0\0\0\0\0\0\0\0\0\0\x10\xA5\0\0\0\x90\x04\x01\0\0\xE4s\xD4z\x04|\xC0\x04$\x90y\xBF\x82\x8B\xF9\xA0;$\\\x14\xD2\xCD\xFA\x83\xAA\xA2\xB4$\xF3\x8D\xC7\xC8\0\0\0hinstance of OMI_ConfigurationDocumeny\n{\n};\ninstance of MSFT_ServiceResource\n{\n ResourceID = \"[N]\xC3\xA9\";\n};\n\0",
        Err(35),
    ),
    (
        b"DSCSTOR1\xA5\0\0\0\x11\x01\0\0\0\0\0\0\0\0\0\0\0\0\0\0\0\x10\xA5\0\0\0\xD0\x04\x01\0\0\xDA\x18\x16\x98\xAA Tw\xF0\xF6\x15\x1D\x91\x0D\x83\xAFv\"c\0Y\xC0NE\xC1\xD0+\x85k\xF3'B\0\0\0\xA8instance of OMI_ConfigurationDocument\n{\n Version = \"2.0.0\";\n};\ninstance of MSFT_Envir\xC1nmentResource\n{\n Value = \"1\";\n ResourceID = \"[H]I\";\n Path = TRUE;\n Name = \"V\";\n};\n\0",
        Err(35),
    ),
    (
        b"DSCSTOR1\xA5\0\0\0\x11\x01\0\0\0\0\0\0\0\0\0\0\0\0\0\0\0\x10\xA5\0\0\0\x9E\x04\x01\0\0\x99\x09\x12c\xBA\xBE\xD2\xC1\xF1;\x14g\x91k^16\x9B\x97\xEF\x0D1H\xE6{\xD4\xDB\x92\x12!\x090\0\0\0vinstance of OMI_ConfigurationDocument\n{\n};\ninstance of MS",
        Err(132),
    ),
    (
        b"DSCSTOR1\xA5\0\0\0\x11\x01\0\0\0\0\0\0\0\0\0\0\0\0\0\0\0\x10\xA5\0\0\0S\x04\x01\0\0\xB2\x0D\xF9\xFA\xC6\x9D\xBFq\xB4\x07I\x80\xD7\xD7o\xF4Ub\xF6He\xAD\xA6\xAF5\xB9X\x9Cc\xA9\xAB\x04\0\0\0+instance of OMI_ConfigurationDocument\n{\n};\n\xA5\0\0\0\x01\x03\0",
        Err(123),
    ),
    (
        b"DSCSTOR1\xA5\0\0\0\x11\x01\0\0\0\0\0\0\0\0\0\0\0\0\0\0\0\x10\0\xE8\xB0>\xBC\x08\xA0\xB8\x85s",
        Ok("agent job 1"),
    ),
];

fn is_opened_so(alloc: Global, row: &Row<'_>) -> Result<bool, AllocError> {
    let (bytes, wanted) = row;
    let answer = kept_in(alloc, bytes.to_vec(alloc)?);
    Ok(match wanted {
        Ok(line) => answer.is_ok_and(|found| found.as_str() == *line),
        Err(at) => place_of(answer) == Some(*at),
    })
}

#[test]
fn a_file_is_a_store_or_fails_at_its_first_wrong_byte(rt: HostRuntime) -> Result<(), Fail> {
    for row in FILES {
        assert!(rt; is_opened_so(rt.alloc(), row)?, "{row:?}");
    }
    Ok(())
}

// The words of bodies, and what the store keeps.
const KEPT: &[(&str, &str)] = &[
    ("registered:5", "agent server registered job 5"),
    ("marked:5", "agent server registered reboot job 5"),
    (
        "registered:5 pending:P current:P previous:P kept:3 sent:4",
        "agent server registered pending P current P previous P r3 s4 job 5",
    ),
    (
        "registered:5 previous:P sent:4",
        "agent server registered previous P s4 job 5",
    ),
    ("marked:5 kept:3 boot", "agent server registered r3 job 5"),
    (
        "registered:5 current:P sent:4 note",
        "agent server registered current P s4 r5 job 6",
    ),
    ("init usual A", "agent pending A job 1"),
    // Lists that the node holds.
    ("init A A", "agent pending A job 1"),
    (
        "registered:5 current:P A promote A",
        "agent server registered pending A current A previous P r5 job 6",
    ),
    (
        "registered:5 current:P A promote P",
        "agent server registered pending P current A previous P r5 job 6",
    ),
    // Of format 2.
    ("format", "job 1"),
    ("format init blob marks:P", "agent pending P job 1"),
    (
        "format init blob marks:A promote marks:A marks:P",
        "agent pending P current A r1 job 2",
    ),
    (
        "format blob registered:5 current-marks:A kept:4 note",
        "agent server registered current A r4 r5 job 6",
    ),
    (
        "format other-blob blob registered:5 pending-marks:Ab current-marks:b previous-marks:A",
        "agent server registered pending A b current b previous A job 5",
    ),
];

// The words of bodies, of which the last is the first that is refused.
const REFUSED: &[&str] = &[
    "pending:P",
    "kept:3",
    "unserved:5",
    "registered:5 registered:5",
    "init registered:5",
    "init pending:P",
    "init kept:3",
    "registered:5 fourth:P",
    "registered:5 pending:P pending:P",
    "registered:5 current:P pending:P",
    "registered:5 previous:P current:P",
    "registered:5 kept:3 current:P",
    "registered:5 sent:4 kept:3",
    "registered:5 sent:4 sent:4",
    "registered:5 kept:5",
    "registered:5 twice:4",
    "registered:5 A current:P",
    "registered:5 pending:P late-note",
    "registered:5 boot",
    "registered:5 init",
    "init nothing",
    "init no-kind",
    "init long-boot",
    "init fourth-stage",
    "init wrong-digest",
    "init A wrong-digest",
    "init no-canonical",
    "init registered",
    "init sent",
    "init format",
    "init blob",
    "init marks:P",
    "format format",
    "format wrong-blob",
    "format blob blob",
    "format blob init A",
    "format blob init marks:P long-marks:P",
    "format blob init marks:PP",
    "format blob init marks:Ab",
    "format init marks:P",
    "format blob registered:5 current:P",
    "format blob init current-marks:P",
];

// What the store of the bodies of these words keeps.
fn kept_of(alloc: Global, words: &str) -> Result<String, StoreError> {
    kept_in(alloc, file_of(alloc, &bodies_of(alloc, words, "")?)?)
}

// Whether the last of these bodies is where their file fails.
fn is_refused(alloc: Global, words: &str) -> Result<bool, AllocError> {
    let bodies = bodies_of(alloc, words, "")?;
    let (front, _) = bodies.split_at(bodies.len().saturating_sub(1));
    let place = (file_of(alloc, front)?.len() as u64).saturating_add(4);
    Ok(place_of(kept_of(alloc, words)) == Some(place))
}

#[test]
fn pieces_stand_in_front_and_in_order(rt: HostRuntime) -> Result<(), Fail> {
    for (words, wanted) in KEPT {
        assert!(rt; kept_of(rt.alloc(), words)?.as_str() == *wanted, "{words}");
    }
    for words in REFUSED {
        assert!(rt; is_refused(rt.alloc(), words)?, "{words}");
    }
    Ok(())
}
