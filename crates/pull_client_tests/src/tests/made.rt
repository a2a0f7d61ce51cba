//! Values that calls are made with.
use dsc_outside::Peer;
use meta_config::Server;
use mof_values::{Bytes, Items, Text};
use report_log::{FailureKind, Missed, Outcome, PartMark, Reason, Report};
use std::alloc::{AllocError, Global};

pub const AGENT: u128 = 0x00112233_4455_6677_8899_aabb_ccdd_eeff;

/// The SHA-256 digest of `abc` (FIPS 180-4).
pub const ABC: [u8; 32] = [
    0xba, 0x78, 0x16, 0xbf, 0x8f, 0x01, 0xcf, 0xea, 0x41, 0x41, 0x40, 0xde, 0x5d, 0xae, 0x22, 0x23,
    0xb0, 0x03, 0x61, 0xa3, 0x96, 0x17, 0x7a, 0x9c, 0xb4, 0x10, 0xff, 0x61, 0xf2, 0x00, 0x15, 0xad,
];

/// A server, by its parts.
pub type Site = (bool, &'static str, u16, &'static str, &'static str);

pub const PLAIN: Site = (false, "pull.example", 80, "/PSDSCPullServer.svc", "k");

pub fn text(alloc: Global, text: &str) -> Result<Text, AllocError> {
    Ok(Text::of(text.chars().collect(alloc)?))
}

pub fn texts(alloc: Global, all: &[&str]) -> Result<Vec<Text>, AllocError> {
    let mut made = Vec::new(alloc);
    for one in all {
        made.push(text(alloc, one)?)?;
    }
    Ok(made)
}

pub fn bytes(alloc: Global, bytes: &[u8]) -> Result<Bytes, AllocError> {
    Ok(Bytes::of(bytes.to_vec(alloc)?))
}

pub fn server(alloc: Global, site: &Site) -> Result<Server, AllocError> {
    let (https, host, port, prefix, key) = *site;
    let host = text(alloc, host)?;
    let prefix = text(alloc, prefix)?;
    Ok(Server {
        https,
        peer: Peer { host, port },
        prefix,
        key: text(alloc, key)?,
    })
}

pub fn held(alloc: Global) -> Result<Vec<PartMark>, AllocError> {
    let mut held = Vec::new(alloc);
    held.push(part(alloc, "Web", ABC)?)?;
    held.push(part(alloc, "Web", [7; 32])?)?;
    Ok(held)
}

fn part(alloc: Global, name: &str, digest: [u8; 32]) -> Result<PartMark, AllocError> {
    Ok(PartMark {
        name: text(alloc, name)?,
        digest,
    })
}

pub fn report(alloc: Global) -> Result<Report, AllocError> {
    let listed = Items::of(listed(alloc)?);
    let parts = Items::of(parts(alloc)?);
    Ok(Report {
        job: 7,
        initial: true,
        pull: true,
        start: 0,
        end: 253_402_207_200,
        version: text(alloc, "1.0")?,
        outcome: Outcome::Failure,
        total: 9,
        missed: 6,
        listed,
        parts,
    })
}

fn parts(alloc: Global) -> Result<Vec<PartMark>, AllocError> {
    let mut parts = Vec::new(alloc);
    parts.push(part(alloc, "Web", ABC)?)?;
    parts.push(part(alloc, "a\"b\u{1}é", [0; 32])?)?;
    Ok(parts)
}

fn listed(alloc: Global) -> Result<Vec<Missed>, AllocError> {
    let reasons = [
        ("[File]a", Reason::NotInDesiredState),
        ("[File]b", Reason::Failed(FailureKind::InTheWay)),
        ("[File]c", Reason::Skipped),
        ("[File]d", Reason::RebootAsked),
        ("[File]e", Reason::NotReached),
        ("[File]f", Reason::Failed(FailureKind::HostFailed)),
    ];
    let mut listed = Vec::new(alloc);
    for (id, reason) in reasons {
        let id = text(alloc, id)?;
        listed.push(Missed { id, reason })?;
    }
    Ok(listed)
}

/// A report whose message is the longest: each character of a name takes seven bytes there, and of an id six.
pub fn largest_report(alloc: Global) -> Result<Report, AllocError> {
    let listed = Items::of(most_listed(alloc)?);
    let parts = Items::of(most_parts(alloc)?);
    Ok(Report {
        job: 7,
        initial: false,
        pull: true,
        start: 253_402_207_200,
        end: 253_402_207_200,
        version: controls(alloc, 64)?,
        outcome: Outcome::Reboot,
        total: u32::MAX,
        missed: u32::MAX,
        listed,
        parts,
    })
}

fn most_listed(alloc: Global) -> Result<Vec<Missed>, AllocError> {
    let mut listed = Vec::new(alloc);
    for _ in 0..64 {
        let id = controls(alloc, 256)?;
        let reason = Reason::NotInDesiredState;
        listed.push(Missed { id, reason })?;
    }
    Ok(listed)
}

fn most_parts(alloc: Global) -> Result<Vec<PartMark>, AllocError> {
    let mut parts = Vec::new(alloc);
    for _ in 0..8 {
        let name = controls(alloc, 255)?;
        let digest = [0; 32];
        parts.push(PartMark { name, digest })?;
    }
    Ok(parts)
}

// That many characters of the code 1.
fn controls(alloc: Global, count: usize) -> Result<Text, AllocError> {
    let mut chars = Vec::new(alloc);
    for _ in 0..count {
        chars.push('\u{1}')?;
    }
    Ok(Text::of(chars))
}
