//! The replies of the pull server: a code, a message, or a content under its checksum.
ghost use Rattle.std.specs.Prelude.{◌≡◌, ◌++◌, [], IfOk, OnOk, codes};
ghost use Rattle.std.specs.Fmt.{decimal};
ghost use Rattle.http_frames.specs.Replies.{saying};
ghost use Rattle.pull_messages.specs.declared.error.MessageError.TheVariants as errors;
ghost use Rattle.pull_server.specs.Messages.{fault_text};
ghost use Rattle.pull_server.specs.Replies.{content_reply, message_reply, plain};

use http_frames::{Header, Reply};
use mof_values::{Bytes, Items, Memory};
use pull_messages::MessageError;
use pull_outside::Shelf;
use shared_key::checksum_text;
use std::alloc::Global;

/// A reply without a body; takes no memory.
pub fn plain(alloc: Global, code: u16) -> Reply
    ensures { result ≡ plain code }
{
    Reply {
        code,
        headers: Items::of(Vec::new(alloc)),
        body: Bytes::of(Vec::new(alloc)),
    }
}

/// That the target goes wrong at this place.
pub fn bad_target(alloc: Global, at: usize) -> Result<Reply, Memory>
    ensures { IfOk result (λ reply. reply ≡ saying 400 (codes "target " ++ decimal at)) }
{
    let text = format!(in alloc; "target {at}")?;
    Reply::saying(alloc, 400, text.as_bytes())
}

/// That the body is no message of its kind.
pub fn bad_message(alloc: Global, error: MessageError) -> Result<Reply, Memory>
    ensures says { IfOk result (λ reply. reply ≡ saying 400 (fault_text error)) }
    ensures memory { error ≡ errors.Memory → OnOk result ⊥ }
{
    match error {
        MessageError::Json => Reply::saying(alloc, 400, b"json"),
        MessageError::Missing(field) => naming(alloc, "missing ", field.name()),
        MessageError::Wrong(field) => naming(alloc, "wrong ", field.name()),
        MessageError::Memory => Err(Memory),
    }
}

fn naming(alloc: Global, fault: &str, name: &str) -> Result<Reply, Memory>
    ensures { IfOk result (λ reply. reply ≡ saying 400 (fault.now ++ name.now)) }
{
    let mut text = fault.as_bytes().to_vec(alloc)?;
    text.extend_from_slice(name.as_bytes())?;
    Reply::saying(alloc, 400, &text)
}

/// A message.
#[tactic(auto, unfolding(crate::specs::Replies::message_reply))]
pub fn message_reply(alloc: Global, body: Vec<u8>) -> Result<Reply, Memory>
    ensures { IfOk result (λ reply. reply ≡ message_reply body.items) }
{
    let mut headers = Vec::new(alloc);
    headers.push(Header::of(alloc, "Content-Type", b"application/json")?)?;
    Ok(Reply {
        code: 200,
        headers: Items::of(headers),
        body: Bytes::of(body),
    })
}

/// A content under its checksum, of which the shelf gives the digest.
#[tactic(auto, unfolding(crate::specs::Replies::content_reply))]
pub fn content_reply<S: Shelf>(
    alloc: Global,
    shelf: &mut S,
    content: Vec<u8>,
) -> Result<Reply, Memory>
    ensures reply { IfOk result (λ reply. reply ≡ content_reply content.items) }
    ensures same { S.holds shelf.new ≡ S.holds shelf.old }
    ensures faults { S.faults shelf.new ≡ S.faults shelf.old }
{
    let checksum = checksum_text(&shelf.digest(&content));
    let mut headers = Vec::new(alloc);
    headers.push(Header::of(alloc, "Content-Type", b"application/octet-stream")?)?;
    headers.push(Header::of(alloc, "Checksum", &checksum)?)?;
    headers.push(Header::of(alloc, "ChecksumAlgorithm", b"SHA-256")?)?;
    Ok(Reply {
        code: 200,
        headers: Items::of(headers),
        body: Bytes::of(content),
    })
}
