//! What a request comes to.
use http_frames::Reply;
use pull_messages::Registration;

/// A reply, or what is to be kept before there is one.
#[derive(Drop)]
pub enum Verdict {
    Says(Reply),

    /// The registration of an agent.
    Register(u128, Registration),

    /// A report of an agent, its job, and its body as it was sent.
    Report(u128, u128, Vec<u8>),
}
