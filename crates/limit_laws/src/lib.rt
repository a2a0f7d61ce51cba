//! The number of each limit, as a law: clauses cite a limit by its name, so that a number which is changed by mistake
//! would change what they say too. Here each number stands once more.
//!
//! No program names this crate. Its function has no body: its contract is the law.
//!
//! Where a thing is:
//! - the number of each limit: `specs/Limits.antt`
#![tactic(auto)]

mod laws;

pub use laws::limits_are;
