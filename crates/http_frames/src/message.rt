//! Messages without their frames.
ghost use Rattle.std.specs.Prelude.{◌≡◌, IfOk};
ghost use Rattle.http_frames.specs.Headers.{header};
ghost use Rattle.http_frames.specs.Replies.{saying};

use mof_values::{Bytes, Items, Memory};
use std::alloc::{AllocError, Global};

/// A header line: its name, and its value without the white space around it.
#[derive(Debug, Drop, PartialEq)]
pub struct Header {
    pub name: Bytes,
    pub value: Bytes,
}

impl Header {
    /// A name and a value.
    pub fn of(alloc: Global, name: &str, value: &[u8]) -> Result<Header, AllocError>
        ensures { IfOk result (λ made. made ≡ header name.now value.now) }
    {
        Ok(Header {
            name: Bytes::of(name.as_bytes().to_vec(alloc)?),
            value: Bytes::of(value.to_vec(alloc)?),
        })
    }
}

/// A request (RFC 9112, section 3). The body is the content, without any framing.
#[derive(Debug, Drop, PartialEq)]
pub struct Request {
    pub method: Bytes,
    pub target: Bytes,
    pub headers: Items<Header>,
    pub body: Bytes,
}

/// An answer to a request (RFC 9112, section 4).
#[derive(Debug, Drop, PartialEq)]
pub struct Reply {
    pub code: u16,
    pub headers: Items<Header>,
    pub body: Bytes,
}

impl Reply {
    /// A code and a body, without headers.
    pub fn saying(alloc: Global, code: u16, body: &[u8]) -> Result<Reply, Memory>
        ensures { IfOk result (λ reply. reply ≡ saying code body.now) }
    {
        Ok(Reply {
            code,
            headers: Items::of(Vec::new(alloc)),
            body: Bytes::of(body.to_vec(alloc)?),
        })
    }
}
