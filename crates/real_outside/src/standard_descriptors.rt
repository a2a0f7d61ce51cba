//! The descriptors 0 to 2, which a program may be started without.
use std::fs::OpenOptions;
use std::io;
use std::rt::Files;

/// Openings of `/dev/null`. Those of the descriptors 0 to 2 that were closed are among them.
#[derive(Drop)]
pub struct StandardDescriptors<F: Drop> {
    _held: [F; 3],
}

/// Opens `/dev/null` in the place of each of the descriptors 0 to 2 that is closed, so that no file that is opened later gets
/// one of them and what is printed goes into it. Call it before anything else is opened, and keep the answer to the end.
pub fn hold_standard_descriptors<R: Files>(rt: &R) -> io::Result<StandardDescriptors<R::File>> {
    let mut options = OpenOptions::new();
    options.read(true).write(true);
    Ok(StandardDescriptors {
        _held: [
            options.open(rt, "/dev/null")?,
            options.open(rt, "/dev/null")?,
            options.open(rt, "/dev/null")?,
        ],
    })
}
