//! What no clause of a store says.
mod damaged;
mod openings;
mod rewrites;
mod sizes;
mod stops;
mod table;
mod written;
