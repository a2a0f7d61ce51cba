//! The arguments that a program is started with.
use std::alloc::AllocError;
use std::env::{self, Env};
use std::io::ErrorKind;

/// The arguments, the program's name first, or none where one of them is not in UTF-8.
pub fn arguments<R: AllocGlobal + Env>(rt: &R) -> Result<Vec<String>, AllocError> {
    match env::args(rt) {
        Ok(arguments) => Ok(arguments.collect(rt.alloc())?),
        Err(e) if e.kind() == ErrorKind::OutOfMemory => Err(AllocError),
        Err(_) => Ok(Vec::new(rt.alloc())),
    }
}
