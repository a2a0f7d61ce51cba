//! The sizes of a node's store.
use node_state::MAX_BYTES;

/// The bytes of a bank: 64 MiB. A bank holds the pieces of any node, which are about 51 MB at most.
pub const BANK: u64 = 67_108_864;

/// The most bytes of a body in a store of this format: the documents of a Stage, and 65,536 for all that stands in front of them.
pub const MAX_BODY: usize = MAX_BYTES as usize + 65_536;
