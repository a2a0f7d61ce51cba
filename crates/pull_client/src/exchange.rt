//! One exchange with a server.
ghost use Rattle.std.specs.Prelude.{◌≡◌, ◌||◌, ◌==◌, true, false, IfErr};
ghost use Rattle.dsc_outside.specs.declared.exchange.ExchangeOutcome.TheVariants.{Answered};
ghost use Rattle.http_frames.specs.OneAnswer.{ReplyAnswer};
ghost use Rattle.dsc_outside.specs.LinkView.{view_of};
ghost use Rattle.pull_client.specs.Asks.{Asks};
ghost use Rattle.pull_client.specs.Heard.{Heard, IsAnswered, IsReply, frame_fault, is_accepted};

use crate::PeerError;
use dsc_outside::{Link, LinkError};
use http_frames::{FrameError, Reply, read_answer};
use meta_config::Server;
use std::alloc::Global;

/// Sends the request to a server that does not want https, and gives the reply that was accepted.
pub fn exchange<L: Link>(
    alloc: Global,
    link: &mut L,
    server: &Server,
    request: &[u8],
) -> Result<Reply, PeerError>
    requires { server.now.https ≡ false }
    ensures asks { Asks server.now request.now IsReply (view_of L.Link link.old)
        (view_of L.Link link.new) result }
    ensures becomes { L.may_become link.old link.new }
{
    let mut answer = Vec::new(alloc);
    match link.exchange(&server.peer, request, &mut answer) {
        Ok(()) => accepted(alloc, answer),
        Err(LinkError::Failed) => Err(PeerError::Link),
        Err(LinkError::TooLong) => Err(PeerError::TooLong),
        Err(LinkError::Memory) => Err(PeerError::Memory),
    }
}

// The reply that the bytes are, if its code is one that is accepted.
fn accepted(alloc: Global, bytes: Vec<u8>) -> Result<Reply, PeerError>
    ensures heard { Heard IsReply (Answered bytes.items) result }
    ensures answered { IsAnswered result }
{
    match read_answer(alloc, bytes) {
        Ok(reply) => if is_accepted(reply.code) {
            Ok(reply)
        } else {
            Err(PeerError::Status { code: reply.code })
        },
        Err(error) => Err(frame_fault(error)),
    }
}

fn is_accepted(code: u16) -> bool
    ensures { result ≡ is_accepted code }
{
    code == 200 || code == 201 || code == 204
}

// Out of memory, the reader has not judged the bytes.
fn frame_fault(error: FrameError) -> PeerError
    ensures { result ≡ frame_fault error }
{
    match error {
        FrameError::Memory => PeerError::Memory,
        other => PeerError::Frame(other),
    }
}
