//! What a pull server reaches: the shelf of what it hands out, and the door through which connections come.
//!
//! Each trait has a count of faults that never falls, and a call answers `Failed` only where the count rose in that
//! call, or stands at 2^64 - 1. What a shelf holds, which connections are to come, and which were handed back to end in
//! which way, is shown or not: forms in memory show it, the real things do not, and the clauses on content hold
//! where it is shown. `MemoryShelf`, `MemoryConn` and `MemoryDoor` fail in the calls that they were set to fail in,
//! and in no other but where an item is too long, no connection is left, or they run out of memory for what they keep.
//! `ReliableShelf` never fails, and its content can change between two calls.
//!
//! Where a thing is:
//! - a shelf or a door: `src/shelf.rt`, `src/door.rt`; `specs/Shelf.antt`, `specs/Door.antt`
//! - their forms in memory: `src/memory/`, `specs/Memory.antt`; the shelf that never fails `specs/ReliableShelf.antt`
#![tactic(auto)]

mod door;
mod memory;
mod shelf;

pub use door::{Door, Parting};
pub use memory::{
    ClosedConn, Configuration, MemoryConn, MemoryDoor, MemoryShelf, ReliableShelf, ShelfContents,
};
pub use shelf::{LONGEST_ITEM, Shelf, ShelfError};
