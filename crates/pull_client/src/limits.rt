//! Limits of what a node reads of a server.

use http_frames::MAX_MESSAGE_BODY;

/// The most bytes of a body that is read as the answer to a query: read as JSON it takes a hundred times its size.
pub(crate) const MAX_ACTION_ANSWER: usize = MAX_MESSAGE_BODY;
