//! Parts from files.
ghost use Rattle.std.specs.Prelude.{◌≡◌, IfOk, length, vec_len};

use mof_values::{Bytes, Text};
use partial_merge::{Part, part_of};
use std::alloc::{AllocError, Global};
use std::rt::Files;
use std::{fs, io};

/// The parts that the files are, in their order.
pub fn read_parts<R: Files + AllocGlobal>(rt: &R, files: &[String]) -> io::Result<Vec<Part>>
    ensures { IfOk result (λ parts. vec_len parts ≡ length files.now) }
{
    let mut parts = Vec::new(rt.alloc());
    for (number, file) in files.iter().enumerate() {
        let bytes = fs::read(rt, file.as_str())?;
        let name = name_of(rt.alloc(), number)?;
        parts.push(part_of(rt.alloc(), name, Bytes::of(bytes))?)?;
    }
    Ok(parts)
}

// The name of the part with this number.
fn name_of(alloc: Global, number: usize) -> Result<Text, AllocError> {
    let name = format!(in alloc; "part{number}")?;
    Text::from_latin1(alloc, name.as_bytes())
}
