//! The image of a file that another program writes, as a disk.
//!
//! It shows nothing of what it holds, and counts its failures. A layer above may rely on this: the file is opened to be
//! read alone, is not locked and is left as it is; all that is read is of one image of it, where between two changes of
//! one byte, the mark, bytes are only added, and such a change is known. What the system gives is in no clause: this
//! crate is an edge that is trusted and tested.
//!
//! Where a thing is:
//! - what is read, and when it is of one image: `src/image_file.rt`; how the file is opened and looked at:
//!   `src/looking.rt`
#![tactic(auto)]

mod image_file;
mod looking;

pub use image_file::ImageFile;
