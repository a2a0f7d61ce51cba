//! What no clause of a log says: that ample memory is enough, which calls of the disk an append makes, the bytes of worked
//! stores, and what the next opening finds where the disk stopped in any call.
mod calls;
mod counters;
mod openings;
mod rewrites;
mod stores;
mod texts;
