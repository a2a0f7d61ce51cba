//! A pull server of MS-DSCPM 2.0: what it answers to a request.
//!
//! The first row of the answer table that applies gives the reply and says whether the rows of the store change. A
//! layer above may rely on this: `answer` gives the reply of the table, or 500 where the count of faults of the disk or
//! of the shelf rose; a registration and a report are acknowledged only once every image of the disk stands for the
//! rows after them; and a crash at any moment leaves the rows before the request, or those after a change that the
//! table makes.
//!
//! Where a thing is:
//! - the answer table of the pull server: `specs/Table.antt`, row by row; what it looks at `specs/Asked.antt`, what an
//!   answer says `specs/Answers.antt`; the rows in code `src/judging.rt`, what is kept `src/keeping.rt`
//! - what a query is answered, and what is seen of contents meanwhile: `specs/Actions.antt`, `src/acting.rt`;
//!   `specs/SeenContents.antt`, `src/seen.rt`
//! - that replies read back, and that a checksum is announced only of what the shelf has: `specs/SentReplies.antt`
#![tactic(auto)]

mod acting;
mod answers;
mod fetching;
mod judging;
mod keeping;
mod laws;
mod replies;
mod seen;
mod signatures;
mod verdict;

pub use answers::answer;
pub use judging::{is_known, is_of_version};
pub use laws::{
    agents_are_alone, replies_are_of_own_rows, replies_are_of_the_shelf, the_first_row_decides,
};
pub use replies::{message_reply, plain};
