//! What no clause of a store says.
mod agents;
mod damaged;
mod openings;
mod rewrites;
mod rows;
mod sizes;
mod stops;
