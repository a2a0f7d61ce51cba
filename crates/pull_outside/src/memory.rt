//! The forms in memory, which show what they hold, and which fail where they are set to, or never.

mod calls;
mod conn;
mod contents;
mod door;
mod reliable_shelf;
mod shelf;

pub use conn::{ClosedConn, MemoryConn};
pub use contents::{Configuration, ShelfContents};
pub use door::MemoryDoor;
pub use reliable_shelf::ReliableShelf;
pub use shelf::MemoryShelf;
