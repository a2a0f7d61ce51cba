//! That ample memory is enough.
mod doors;
mod shelves;
