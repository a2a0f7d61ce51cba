//! The pull server of a node, and what the URL of a server names.
use dsc_outside::Peer;
use mof_values::Text;

/// The pull server of a node.
#[derive(Debug, Drop, PartialEq)]
pub struct Server {
    pub https: bool,

    /// The host is in lower case.
    pub peer: Peer,

    /// The path of the URL, without the slashes at its end.
    pub prefix: Text,

    /// The registration key, or empty.
    pub key: Text,
}

/// What the URL of a server names: two URLs name one server where their sites are equal.
#[derive(Debug, Drop, PartialEq)]
pub struct Site {
    pub https: bool,

    /// The host is in lower case.
    pub peer: Peer,

    /// The path of the URL, without the slashes at its end.
    pub prefix: Text,
}
