//! The limits of rows, and the sizes of a pull server's store.

use http_frames::MAX_MESSAGE_BODY;
use pull_messages::MAX_TEXT_BYTES;

/// The most rows, so the most agents that are registered.
pub const MAX_ROWS: usize = 512;

/// The most reports of an agent that are kept.
pub const MAX_REPORTS: usize = 4;

/// The most bytes of a report, and of all texts of a registration together in UTF-8: all that a body can bring.
pub const MAX_BYTES: usize = MAX_MESSAGE_BODY;

/// The most bytes of a text of a registration, as its length is stored.
pub(crate) const TEXT_LIMIT: u16 = MAX_TEXT_BYTES as u16;

/// The bytes of the lengths in a registration without names: two for each of three texts, and one for the number of names.
pub(crate) const LENGTHS: usize = 7;

/// The capacity for a body: `MAX_BYTES`, and 128 for the kind, the agent, the job and the lengths, of which there are at most 56.
pub const BODY_CAPACITY: usize = MAX_BYTES + 128;

/// The most bytes of a body in a store of this format: one and a half times `MAX_BYTES`. No body is so long.
pub const MAX_BODY: u32 = (MAX_BYTES + MAX_BYTES / 2) as u32;

/// The bytes of a bank: as many as `MAX_ROWS` rows of a registration and `MAX_REPORTS` reports of `MAX_BYTES` each.
pub const BANK: u64 = (MAX_ROWS * (1 + MAX_REPORTS) * MAX_BYTES) as u64;
