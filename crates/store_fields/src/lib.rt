//! The fields that the bodies of both stores are made of: numbers, truth values, texts, bytes, digests and lists.
//!
//! `specs/Fields.antt` says which bytes a value has. A layer above may rely on this: a writer appends exactly these,
//! and takes no memory where the buffer's capacity suffices; a reader takes exactly the value that stands at the front
//! of the bytes, and refuses exactly where no value in range does. So a body that is fields one after the other is read
//! field by field, and no two values have the same bytes.
//!
//! Where a thing is:
//! - the bytes of a field: `specs/Fields.antt`; what a reader takes `specs/Reading.antt`, `src/reading.rt`; what a
//!   writer leaves `specs/Writing.antt`, `src/writing.rt`; lists `src/lists.rt`
#![tactic(auto)]

mod error;
mod laws;
mod limits;
mod lists;
mod reading;
mod writing;

pub use error::FieldError;
pub use laws::bytes_are_of_one_value;
pub use limits::MAX_TEXT;
pub use lists::{FieldForm, TextForm, put_list, read_list};
pub use reading::Fields;
pub use writing::{
    put_blob, put_byte, put_bytes, put_digest, put_flag, put_text, put_u16, put_u32, put_u64,
    put_u128,
};
