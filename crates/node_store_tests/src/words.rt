//! Bodies of events and of pieces, from a word each.
//!
//! A word of one or two letters is a list that is staged, with a part for each letter: the letter is its name, and a capital has one
//! document, a small letter another, a digit a third. The part of `-` has no name and that other document.
use std::alloc::{AllocError, Global};

/// The body of Init, of the agent 16.
pub const INIT: &[u8] = b"\x01\0\0\0\0\0\0\0\0\0\0\0\0\0\0\0\x10";

/// A meta-configuration with a server.
pub const SERVED: &[u8] =
    b"\x02instance of MSFT_DSCMetaConfiguration\n{\n ConfigurationMode = \"ApplyOnly\";\n RefreshMode = \"Disabled\";\n RebootNodeIfNeeded = FALSE;\n ActionAfterReboot = \"StopConfiguration\";\n ConfigurationModeFrequencyMins = 15;\n RefreshFrequencyMins = 0;\n AllowModuleOverwrite = FALSE;\n};\ninstance of MSFT_WebResourceManager\n{\n ServerURL = \"http://a.b-c:1/x\";\n};\n";

/// One without.
pub const ALONE: &[u8] =
    b"\x02instance of MSFT_DSCMetaConfiguration\n{\n ConfigurationMode = \"ApplyOnly\";\n RefreshMode = \"Push\";\n RebootNodeIfNeeded = TRUE;\n ActionAfterReboot = \"StopConfiguration\";\n ConfigurationModeFrequencyMins = 15;\n RefreshFrequencyMins = 30;\n AllowModuleOverwrite = FALSE;\n};\n";

const DOCUMENT: &[u8] = b"instance of OMI_ConfigurationDocument{};";

const DIGEST: &[u8] =
    b"\xBB\x101\xD4=\xEC? ,k\xC7\xB3\xABq\xE3\xA9y\x06|\x92e\xFEL\xBE\xA5e7dA\xFA\x12=";

const OTHER: &[u8] = b"instance of OMI_ConfigurationDocument{Version=\"2.0.0\";};";

const OTHER_DIGEST: &[u8] =
    b"J>e\x13ao\x93\"\xE72\xAC|\xDA@[\xA0\xBB\xEFM\xDB\xF2\xEB1\xFBM\x04`$~[\xCA\xD3";

const THIRD: &[u8] = b"instance of OMI_ConfigurationDocument{Version=\"1.0.0\";};";

const THIRD_DIGEST: &[u8] =
    b"\x1B_z\xA7\x07vKYtt\xB3\xB0\x9F\xD2Y\x9AF2\xE7\xE0\xCD\xB7\x02\xA3\xBA\x90\x05\x19c\xB3!+";

/// The words of the events before one, and its own: one of each kind, and lists that a store of these has in part. The number is how
/// many bodies it adds: two to an empty bank, and for a list as many as it has documents that the bank lacks, and one.
pub const COMMITS: &[(&str, &str, u64)] = &[
    ("", "init", 2),
    ("init", "meta", 1),
    ("init meta", "registered", 1),
    ("init", "A", 2),
    ("init A", "A", 1),
    ("init A", "B", 1),
    ("init", "AB", 2),
    ("init", "Ab", 3),
    ("init A", "bA", 2),
    ("init A", "3b", 3),
    ("init A promote B", "promote", 1),
    ("init A", "note", 1),
    ("init A", "ask", 1),
    ("init A ask", "boot", 1),
    ("init A note", "sent", 1),
    ("init A promote", "drop-current", 1),
    ("init A promote B promote", "restore", 1),
];

/// The bodies of the words of a list and of one more. A report is of the next job: from 1 on, or from the one that a base has.
pub fn bodies_of(alloc: Global, words: &str, last: &str) -> Result<Vec<Vec<u8>>, AllocError> {
    let mut bodies = Vec::new(alloc);
    let mut job = 1;
    for word in words.split(' ') {
        job = push_body(&mut bodies, alloc, word, job)?;
    }
    push_body(&mut bodies, alloc, last, job)?;
    Ok(bodies)
}

/// The bodies of a bank of format 2 to which the events of these words were added: a Format, and for each list the Blobs that the bank
/// lacks, in the list's order, and then the list by digests.
pub fn added_of(alloc: Global, words: &str, last: &str) -> Result<Vec<Vec<u8>>, AllocError> {
    let mut bodies = Vec::new(alloc);
    bodies.push(b"\x0F\x02".to_vec(alloc)?)?;
    let mut job = 1;
    for word in words.split(' ') {
        job = add_word(&mut bodies, alloc, word, job)?;
    }
    add_word(&mut bodies, alloc, last, job)?;
    Ok(bodies)
}

// Adds what the event of a word adds; the job after it.
fn add_word(
    bodies: &mut Vec<Vec<u8>>,
    alloc: Global,
    word: &str,
    job: u64,
) -> Result<u64, AllocError> {
    if !is_list(word) {
        return push_body(bodies, alloc, word, job);
    }
    for name in word.as_bytes() {
        let blob = blob_of(alloc, *name)?;
        if !holds(bodies, &blob) {
            bodies.push(blob)?;
        }
    }
    bodies.push(marks(alloc, b"\x11", word.as_bytes())?)?;
    Ok(job)
}

fn is_list(word: &str) -> bool {
    matches!(word.len(), 1 | 2)
}

fn holds(bodies: &[Vec<u8>], body: &[u8]) -> bool {
    for other in bodies {
        if other.as_slice() == body {
            return true;
        }
    }
    false
}

/// The last of these bodies alone.
pub fn last_of(alloc: Global, words: &str, last: &str) -> Result<Vec<Vec<u8>>, AllocError> {
    let mut bodies = bodies_of(alloc, words, last)?;
    Ok(bodies.split_off(bodies.len().saturating_sub(1))?)
}

// Adds the body of a word, where it is none that is empty; the job after it.
fn push_body(
    bodies: &mut Vec<Vec<u8>>,
    alloc: Global,
    word: &str,
    job: u64,
) -> Result<u64, AllocError> {
    if word.is_empty() {
        return Ok(job);
    }
    bodies.push(body_of(alloc, word, job)?)?;
    Ok(match word {
        "promote" | "note" | "ask" => job.saturating_add(1),
        "registered:5" | "marked:5" => 5,
        _ => job,
    })
}

/// The body of the event or piece of this word, or bytes that are the body of none. A report is of this job, and of the job 0 where
/// it is late. A piece is a word, a colon, and its job or the letters of its list. A list is in full, but as marks, which are digests.
pub fn body_of(alloc: Global, word: &str, job: u64) -> Result<Vec<u8>, AllocError> {
    match word {
        "init" => INIT.to_vec(alloc),
        "meta" => SERVED.to_vec(alloc),
        "usual" => ALONE.to_vec(alloc),
        "registered" => b"\x03".to_vec(alloc),
        "promote" => run(alloc, 5, job),
        "note" => run(alloc, 6, job),
        "ask" => run(alloc, 7, job),
        "late-promote" => run(alloc, 5, 0),
        "late-note" => run(alloc, 6, 0),
        "late-ask" => run(alloc, 7, 0),
        "boot" => b"\x08".to_vec(alloc),
        "sent" => b"\x09\0\0\0\0\0\0\0\x01".to_vec(alloc),
        "drop-pending" => b"\x0A\0".to_vec(alloc),
        "drop-current" => b"\x0A\x01".to_vec(alloc),
        "drop-previous" => b"\x0A\x02".to_vec(alloc),
        "restore" => b"\x0B".to_vec(alloc),
        "nothing" => Ok(Vec::new(alloc)),
        "no-kind" => b"\x0F".to_vec(alloc),
        "format" => b"\x0F\x02".to_vec(alloc),
        "blob" => blob_of(alloc, b'P'),
        "other-blob" => blob_of(alloc, b'p'),
        "third-blob" => blob_of(alloc, b'3'),
        "wrong-blob" => blob(alloc, DIGEST, OTHER),
        "long-boot" => b"\x08\0".to_vec(alloc),
        "fourth-stage" => b"\x0A\x03".to_vec(alloc),
        "wrong-digest" => wrong_digest(alloc),
        "no-canonical" => no_canonical(alloc),
        name => match name.split_once(':') {
            Some((kind, name)) => piece(alloc, kind, name.as_bytes()),
            None => staged(alloc, name.as_bytes()),
        },
    }
}

fn piece(alloc: Global, kind: &str, name: &[u8]) -> Result<Vec<u8>, AllocError> {
    let job = match name {
        [digit] => digit.saturating_sub(b'0'),
        _ => 0,
    };
    match kind {
        "usual" => base(alloc, &[0, 0], job, ALONE),
        "asked" => base(alloc, &[0, 1], job, ALONE),
        "served" => base(alloc, &[0, 0], job, SERVED),
        "registered" => base(alloc, &[1, 0], job, SERVED),
        "marked" => base(alloc, &[1, 1], job, SERVED),
        "unserved" => base(alloc, &[1, 0], job, ALONE),
        "marks" => marks(alloc, b"\x11", name),
        "long-marks" => long_marks(alloc, name),
        "pending-marks" => marks(alloc, b"\x12\0", name),
        "current-marks" => marks(alloc, b"\x12\x01", name),
        "previous-marks" => marks(alloc, b"\x12\x02", name),
        "pending" => slot(alloc, 0, name),
        "current" => slot(alloc, 1, name),
        "previous" => slot(alloc, 2, name),
        "kept" => kept(alloc, 0, job),
        "sent" => kept(alloc, 1, job),
        "twice" => kept(alloc, 2, job),
        _ => slot(alloc, 3, name),
    }
}

// A report without a version, resources and parts.
fn run(alloc: Global, kind: u8, job: u64) -> Result<Vec<u8>, AllocError> {
    let mut body = vec![in alloc; kind]?;
    body.extend_from_slice(&job.to_be_bytes())?;
    body.resize(40, 0)?;
    Ok(body)
}

// A list of parts in full.
fn staged(alloc: Global, names: &[u8]) -> Result<Vec<u8>, AllocError> {
    let mut body = vec![in alloc; 4u8]?;
    body.push(count_of(names))?;
    for name in names {
        push_mark(&mut body, *name)?;
        let length = u32::try_from(document_of(*name).len()).unwrap_or(u32::MAX);
        body.extend_from_slice(&length.to_be_bytes())?;
        body.extend_from_slice(document_of(*name))?;
    }
    Ok(body)
}

// A list of parts by digests, behind these bytes.
fn marks(alloc: Global, front: &[u8], names: &[u8]) -> Result<Vec<u8>, AllocError> {
    let mut body = front.to_vec(alloc)?;
    body.push(count_of(names))?;
    for name in names {
        push_mark(&mut body, *name)?;
    }
    Ok(body)
}

// The same as a Stage, with one byte more.
fn long_marks(alloc: Global, names: &[u8]) -> Result<Vec<u8>, AllocError> {
    let mut body = marks(alloc, b"\x11", names)?;
    body.push(0)?;
    Ok(body)
}

fn count_of(names: &[u8]) -> u8 {
    u8::try_from(names.len()).unwrap_or(u8::MAX)
}

// Appends the name and the digest of the part of this letter.
fn push_mark(body: &mut Vec<u8>, name: u8) -> Result<(), AllocError> {
    if name == b'-' {
        body.extend_from_slice(b"\0\0")?;
    } else {
        body.extend_from_slice(&[0, 1, name])?;
    }
    body.extend_from_slice(digest_of(name))
}

fn document_of(name: u8) -> &'static [u8] {
    if name.is_ascii_uppercase() {
        DOCUMENT
    } else if name.is_ascii_digit() {
        THIRD
    } else {
        OTHER
    }
}

fn digest_of(name: u8) -> &'static [u8] {
    if name.is_ascii_uppercase() {
        DIGEST
    } else if name.is_ascii_digit() {
        THIRD_DIGEST
    } else {
        OTHER_DIGEST
    }
}

// The Blob of the document of this letter.
fn blob_of(alloc: Global, name: u8) -> Result<Vec<u8>, AllocError> {
    blob(alloc, digest_of(name), document_of(name))
}

// These bytes under this digest.
fn blob(alloc: Global, digest: &[u8], bytes: &[u8]) -> Result<Vec<u8>, AllocError> {
    let mut body = b"\x10".to_vec(alloc)?;
    body.extend_from_slice(digest)?;
    body.extend_from_slice(bytes)?;
    Ok(body)
}

// All of a node of the agent 16 but its parts and reports: whether it is registered and a reboot was asked for, and the next job.
fn base(alloc: Global, marks: &[u8; 2], job: u8, meta: &[u8]) -> Result<Vec<u8>, AllocError> {
    let mut body = b"\x0C".to_vec(alloc)?;
    body.extend_from_slice(fields_of(INIT))?;
    body.extend_from_slice(marks)?;
    body.extend_from_slice(&u64::from(job).to_be_bytes())?;
    body.extend_from_slice(fields_of(meta))?;
    Ok(body)
}

// A list in full in a stage.
fn slot(alloc: Global, stage: u8, name: &[u8]) -> Result<Vec<u8>, AllocError> {
    let mut body = vec![in alloc; 13u8]?;
    body.push(stage)?;
    let parts = staged(alloc, name)?;
    body.extend_from_slice(fields_of(&parts))?;
    Ok(body)
}

fn kept(alloc: Global, sent: u8, job: u8) -> Result<Vec<u8>, AllocError> {
    let mut body = vec![in alloc; 14u8]?;
    body.push(sent)?;
    let report = run(alloc, 5, u64::from(job))?;
    body.extend_from_slice(fields_of(&report))?;
    Ok(body)
}

// A part whose digest has another last byte.
fn wrong_digest(alloc: Global) -> Result<Vec<u8>, AllocError> {
    let mut body = staged(alloc, b"A")?;
    if let Some(byte) = body.get_mut(35) {
        *byte = 0x3C;
    }
    Ok(body)
}

// A meta-configuration that is read, in another text than its canonical one.
fn no_canonical(alloc: Global) -> Result<Vec<u8>, AllocError> {
    let mut body = ALONE.to_vec(alloc)?;
    body.push(b' ')?;
    Ok(body)
}

// What stands after the kind.
fn fields_of(body: &[u8]) -> &[u8] {
    match body {
        [_, fields @ ..] => fields,
        [] => &[],
    }
}
