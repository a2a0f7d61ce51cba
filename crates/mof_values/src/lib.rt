//! The values of management documents: texts, identifiers, scalars, properties and instances.
//!
//! A layer above sees a `Text`, an `Ident` and a `Bytes` as lists of numbers, an `Items` as the list of its elements,
//! and the other types as plain data of these. Names compare by fold: ASCII letters without case. A look-up gives the
//! first property of the name. The instance syntax that spells these values is that of DMTF DSP0004.
//!
//! Where a thing is:
//! - what a value holds, and the first value of a name: `src/text.rt`, `src/value.rt`, `src/instance.rt`,
//!   `specs/Values.antt`
//! - identifiers; names that are the same by fold: `src/ident.rt`, `specs/Ident.antt`; `src/fold.rt`, `specs/Fold.antt`
//! - how long an identifier may be: `src/limits.rt`
#![tactic(auto)]

mod bytes;
mod fold;
mod ident;
mod instance;
mod items;
mod limits;
mod memory;
mod text;
mod value;

pub use bytes::Bytes;
pub use fold::{folds_equal, is_named, is_spelled, same_name, same_text};
pub use ident::{Ident, IdentError, may_begin, may_follow};
pub use instance::{Instance, Property};
pub use items::Items;
pub use limits::{MAX_IDENTIFIER, MAX_NAME_BYTES};
pub use memory::Memory;
pub use text::{Text, char_count, copy_texts, fits_utf8, front};
pub use value::{Scalar, Value};
