//! The command `checksum`: the SHA-256 digest of the input, as a line of text.
ghost use Rattle.std.specs.Prelude.{◌≡◌, IfErr, IfOk, Ok};
ghost use Rattle.lcm_program.specs.Checksum.{AnswersChecksum, checksum_line};
ghost use Rattle.lcm_program.specs.Input.{IsInput, IsRefused};

use crate::input::Unread;
use dsc_node::InputError;
use dsc_outside::{Failed, Source};
use sha2::{Digest, Sha256};
use shared_key::checksum_text;

/// The most bytes of an input.
const LIMIT: usize = 67_108_864;

/// The checksum of the input, and a line end. The input is read to its end piece by piece and not kept.
pub fn read_checksum<S: Source>(input: &mut S) -> Result<[u8; 65], Unread>
    ensures ok { IfOk result (λ line. IsInput AnswersChecksum (S.left input.old) (Ok line)) }
    ensures err { IfErr result (λ cause.
        IsRefused AnswersChecksum cause (S.left input.old) (S.faults input.old)
        (S.faults input.new)) }
{
    match read_digest(input) {
        Ok(digest) => Ok(checksum_line(&digest)),
        Err(unread) => Err(unread),
    }
}

// The digest of the input.
fn read_digest<S: Source>(input: &mut S) -> Result<[u8; 32], Unread>
    ensures ok { IfOk result (λ digest. IsInput AnswersChecksum (S.left input.old)
        (Ok (checksum_line digest))) }
    ensures err { IfErr result (λ cause.
        IsRefused AnswersChecksum cause (S.left input.old) (S.faults input.old)
        (S.faults input.new)) }
{
    let mut hash = Sha256::new();
    let mut total = 0;
    let mut buffer = [0u8; 65_536];
    loop {
        match input.read(&mut buffer) {
            Err(Failed) => return Err(Unread::ReadFault),
            Ok(0) => return Ok(hash.finalize()),
            Ok(count) => {
                hash.update(&buffer[..count]);
                total += count;
                if total > LIMIT {
                    return Err(Unread::Refused(InputError::TooLong));
                }
            }
        }
    }
}

// The checksum of the digest, and a line end.
fn checksum_line(digest: &[u8; 32]) -> [u8; 65]
    ensures { result ≡ checksum_line digest.now }
{
    let mut line = [b'\n'; 65];
    let (text, _) = line.split_at_mut(64);
    text.copy_from_slice(&checksum_text(digest));
    line
}
