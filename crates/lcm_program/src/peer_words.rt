//! The printed names of what a pull server gave that is refused.
ghost use Rattle.std.specs.Prelude.{◌≡◌, ◌++◌, codes, OnOk, string_bytes};
ghost use Rattle.shared_key.specs.Checksum.{checksum_of};
ghost use Rattle.pull_messages.specs.Names.{name_of};
ghost use Rattle.lcm_program.specs.PeerWords.{answer_words, frame_words, message_words, mismatch_words, peer_words};

use crate::merge_words::{push_fit_error, push_merge_error, push_text};
use http_frames::FrameError;
use node_pull::PeerFault;
use pull_client::PeerError;
use pull_messages::{Field, MessageError};
use std::alloc::AllocError;

/// Appends the names of the error, and its values.
pub fn push_peer_fault(out: &mut String, fault: &PeerFault) -> Result<(), AllocError>
    ensures { OnOk result (string_bytes out.new ≡ string_bytes out.old ++ peer_words fault.now) }
{
    match fault {
        PeerFault::Answer(error) => push_answer_error(out, error),
        PeerFault::Document(error) => {
            out.push_str("Document ")?;
            push_merge_error(out, error)
        }
        PeerFault::Fit(error) => {
            out.push_str("Fit ")?;
            push_fit_error(out, *error)
        }
        PeerFault::ListTooLong { bytes } => write!(out, "ListTooLong {bytes}"),
    }
}

fn push_answer_error(out: &mut String, error: &PeerError) -> Result<(), AllocError>
    ensures { OnOk result (string_bytes out.new ≡ string_bytes out.old ++ answer_words error.now) }
{
    match error {
        PeerError::NotServed => out.push_str("NotServed"),
        PeerError::Link => out.push_str("Link"),
        PeerError::TooLong => out.push_str("TooLong"),
        PeerError::Frame(error) => {
            out.push_str("Frame ")?;
            push_frame_error(out, *error)
        }
        PeerError::Status { code } => write!(out, "Status {code}"),
        PeerError::Message(error) => {
            out.push_str("Message ")?;
            push_message_error(out, error)
        }
        PeerError::Retry { name } => {
            out.push_str("Retry")?;
            push_text(out, name)
        }
        PeerError::Uncovered { name } => {
            out.push_str("Uncovered")?;
            push_text(out, name)
        }
        PeerError::NoChecksum => out.push_str("NoChecksum"),
        PeerError::Mismatch { announced, found } => push_mismatch(out, announced, found),
        PeerError::Memory => out.push_str("Memory"),
    }
}

fn push_frame_error(out: &mut String, error: FrameError) -> Result<(), AllocError>
    ensures { OnOk result (string_bytes out.new ≡ string_bytes out.old ++ frame_words error) }
{
    match error {
        FrameError::Head => out.push_str("Head"),
        FrameError::HeadTooLong => out.push_str("HeadTooLong"),
        FrameError::Coding => out.push_str("Coding"),
        FrameError::Length => out.push_str("Length"),
        FrameError::NoLength => out.push_str("NoLength"),
        FrameError::BodyTooLong => out.push_str("BodyTooLong"),
        FrameError::Chunk { at } => write!(out, "Chunk {at}"),
        FrameError::Torn { at } => write!(out, "Torn {at}"),
        FrameError::Memory => out.push_str("Memory"),
    }
}

fn push_message_error(out: &mut String, error: &MessageError) -> Result<(), AllocError>
    ensures { OnOk result (string_bytes out.new ≡ string_bytes out.old ++ message_words error.now) }
{
    match error {
        MessageError::Json => out.push_str("Json"),
        MessageError::Missing(field) => push_field(out, "Missing ", *field),
        MessageError::Wrong(field) => push_field(out, "Wrong ", *field),
        MessageError::Memory => out.push_str("Memory"),
    }
}

// What is wrong with a field, and its name.
fn push_field(out: &mut String, fault: &str, field: Field) -> Result<(), AllocError>
    ensures { OnOk result (string_bytes out.new
        ≡ string_bytes out.old ++ fault.now ++ name_of field) }
{
    out.push_str(fault)?;
    out.push_str(field.name())
}

// The digest that was announced, and that of the body.
fn push_mismatch(out: &mut String, announced: &[u8; 32], found: &[u8; 32]) -> Result<(), AllocError>
    ensures { OnOk result (string_bytes out.new
        ≡ string_bytes out.old ++ mismatch_words announced.now found.now) }
{
    out.push_str("Mismatch ")?;
    push_checksum(out, announced)?;
    out.push_str(" ")?;
    push_checksum(out, found)
}

#[tactic(auto, using(crate::proofs::Checksums::checksum_is))]
fn push_checksum(out: &mut String, digest: &[u8; 32]) -> Result<(), AllocError>
    ensures { OnOk result (string_bytes out.new ≡ string_bytes out.old ++ checksum_of digest.now) }
{
    let text = hex::encode_upper(*out.allocator(), digest)?;
    out.push_str(&text)
}
