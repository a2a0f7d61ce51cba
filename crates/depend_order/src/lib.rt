//! The order in which the resources of a document are applied.
//!
//! At each position of the order stands the earliest resource whose dependencies all stand before it. A layer above may
//! rely on it that there is one such order at most, and that where there is none the error names a closed walk:
//! resources of which each depends on the next, and the last on the first. `order_counted` gives either within three
//! steps for each resource and two for each name in a DependsOn, as `Steps` counts them. Names are those of DependsOn
//! (PowerShell Desired State Configuration, "Resource dependencies"), and compare by fold.
//!
//! Where a thing is:
//! - the order, and the closed walk where there is none: `specs/Order.antt`, `specs/Cycle.antt`, of a document
//!   `specs/Documents.antt`; `src/documents.rt`, `src/walk.rt`; that it is one `specs/Laws.antt`, `src/laws.rt`
//! - a document together with its order, `OrderedDocument`: `src/ordered.rt`, `specs/Ordered.antt`
//! - the steps that are counted: `src/steps.rt`
//! - why a document has no order: `specs/Refused.antt`; names and ids that repeat `specs/Repeats.antt`
#![tactic(auto)]

mod counts;
mod dependents;
mod documents;
mod error;
mod laws;
mod names;
mod numbers;
mod ordered;
mod steps;
mod walk;

pub use documents::{dependencies, order, order_counted};
pub use error::{Cycle, InOrderError, OrderError};
pub use laws::{order_laws, order_of_laws};
pub use numbers::order_of;
pub use ordered::{OrderedDocument, in_order};
pub use steps::Steps;
