//! Where other file systems, and folders of this one, are mounted.
use crate::identity::Identity;
use crate::reading::read_rest;
use dsc_outside::HostError;
use std::alloc::{AllocError, Global};
use std::fs;
use std::rt::Files;

/// The system's table of mounts, a line for each.
const TABLE: &str = "/proc/self/mountinfo";

/// The number of the field with the place of a mount, from 0.
const PLACE_FIELD: usize = 4;

/// Where something is mounted: a name in a folder.
#[derive(Drop)]
struct MountPoint {
    folder: Identity,
    name: Vec<u8>,
}

/// What is mounted on this machine.
#[derive(Drop)]
pub struct Mounts {
    points: Vec<MountPoint>,
}

impl Mounts {
    /// Reads the table of mounts.
    pub fn read<R: Files>(rt: &R, alloc: Global) -> Result<Mounts, HostError> {
        let mut table = Vec::new(alloc);
        read_rest(&mut fs::open(rt, TABLE)?, &mut table)?;
        let mut points = Vec::new(alloc);
        for line in table.split(|b| *b == b'\n') {
            if let Some(field) = line.split(|b| *b == b' ').nth(PLACE_FIELD) {
                let place = unescaped(alloc, field)?;
                if let Some(point) = point_at(rt, alloc, &place)? {
                    points.push(point)?;
                }
            }
        }
        Ok(Mounts { points })
    }

    /// Answers whether something is mounted somewhere in the folder, or below a name in it that is not UTF-8.
    pub fn has_in(&self, folder: Identity) -> bool {
        self.points.iter().any(|point| point.folder == folder)
    }

    /// Answers whether something is mounted at that name in the folder.
    pub fn has_at(&self, folder: Identity, name: &str) -> bool {
        self.points.iter().any(|point| point.folder == folder
            && point.name.as_slice() == name.as_bytes())
    }
}

// The folder and the name of a mount at that place. There is none where the folder is not to be had: then nothing that is
// reached from elsewhere is that folder.
fn point_at<R: Files>(
    rt: &R,
    alloc: Global,
    place: &[u8],
) -> Result<Option<MountPoint>, AllocError> {
    let (folder, name) = split_place(place);
    match fs::metadata(rt, folder) {
        Ok(found) => Ok(Some(MountPoint {
            folder: Identity::of(&found),
            name: name.to_vec(alloc)?,
        })),
        Err(_) => Ok(None),
    }
}

// The folder that a place is in, and the rest of it: its name, and where that or one above it is not UTF-8, all from there on.
fn split_place(place: &[u8]) -> (&str, &[u8]) {
    let text = match str::from_utf8(place) {
        Ok(text) => text,
        Err(error) => str::from_utf8(&place[..error.valid_up_to()]).unwrap_or(""),
    };
    let end = text.rfind('/').unwrap_or(0);
    let folder = text.get(..end).unwrap_or("");
    let name = place.get(end.saturating_add(1)..).unwrap_or(&[]);
    (if folder.is_empty() { "/" } else { folder }, name)
}

// A field in which a blank, a tab, a line feed and a backslash stand as a backslash and three octal digits.
fn unescaped(alloc: Global, field: &[u8]) -> Result<Vec<u8>, AllocError> {
    let mut text = Vec::new(alloc);
    let mut rest = field;
    for _ in 0..field.len() {
        let (byte, more) = match rest {
            [b'\\', a, b, c, more @ ..] => (octal(*a, *b, *c), more),
            [byte, more @ ..] => (*byte, more),
            [] => return Ok(text),
        };
        text.push(byte)?;
        rest = more;
    }
    Ok(text)
}

// The byte of three octal digits.
fn octal(a: u8, b: u8, c: u8) -> u8 {
    (a & 7) << 6 | (b & 7) << 3 | c & 7
}
