//! Reads a whole input.
ghost use Rattle.std.specs.Prelude.{◌≡◌, ◌<◌, ◌≤◌, ◌^◌, length, OnOk, IfOk, IfSome, IsErrOf};
ghost use Rattle.std.specs.Io.KnownBytes.{IsAtEnd};
ghost use Rattle.dsc_terms.specs.Counts.{Rose};
ghost use Rattle.lcm_program.specs.Input.{IsInput, IsLonger};

use dsc_outside::{Failed, Source};
use std::alloc::{AllocError, Global};

/// Why an input was not read.
#[derive(Clone, Copy, Debug, PartialEq, Eq)]
pub enum ReadError {
    Failed,
    TooLong,
    Memory,
}

/// Reads to the end, where that is at most `limit` bytes. A read that fails before more bytes came is a failure.
pub fn read_all<S: Source>(
    alloc: Global,
    source: &mut S,
    limit: usize,
) -> Result<Vec<u8>, ReadError>
    requires { limit < 2 ^ 62 }
    ensures ok { IfOk result (λ v. IfSome (S.left source.old) (λ all. v.items ≡ all)) }
    ensures fits { IfOk result (λ v. length v.items ≤ limit) }
    ensures end { OnOk result (IsAtEnd (S.left source.new)) }
    ensures held { S.held source.new ≡ S.held source.old }
    ensures too_long { IsErrOf result ReadError.TooLong → IsInput IsLonger (S.left source.old)
        limit }
    ensures failed { IsErrOf result ReadError.Failed → Rose (S.faults source.old)
        (S.faults source.new) }
    ensures later { S.faults source.old ≤ S.faults source.new }
{
    let mut bytes = Vec::new(alloc);
    let mut buffer = [0u8; 8192];
    loop {
        match source.read(&mut buffer) {
            Err(Failed) => return Err(ReadError::Failed),
            Ok(0) => return Ok(bytes),
            Ok(count) => {
                if let Err(AllocError) = bytes.extend_from_slice(&buffer[..count]) {
                    return Err(ReadError::Memory);
                }
                if bytes.len() > limit {
                    return Err(ReadError::TooLong);
                }
            }
        }
    }
}
