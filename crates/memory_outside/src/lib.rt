//! The outside in memory: forms of the traits of `dsc_outside` that show what they hold.
//!
//! `MemorySource`, `MemorySink`, `MemoryDisk`, `MemoryHost`, `MemoryLink` and `MemoryClock` are exact: they fail in the
//! calls that they were set to fail in, the disk and the host also from their stop on, the link and the clock also
//! where they have no answer or no moment to give, and in no other but where they run out of memory for what they keep.
//!
//! Those of a rehearsal fail less, and say so by their types, so that it is known after a call that is generic over
//! them too. `ReliableHost`, `ReliableSource`, `NullSink` and `FixedClock` fail in no call, and `ReliableDisk` in none
//! but where it runs out of memory. `StoppedDisk` and `StoppedHost` do the same up to a stop, which comes in a call
//! whose number is counted over both of them; what each leaves is what the next start finds.
//!
//! Where a thing is:
//! - the host in memory, its failures and its stop; one that never fails: `src/host.rt`, `src/reliable.rt`, with a file
//!   each for paths, variables, lists and stops; `specs/MemoryHost.antt`. What a change leaves as it was:
//!   `proofs/Bounds.antt`
//! - the disk in memory, its record, its failures and what its stop leaves: `src/disk.rt`, `src/disk_calls.rt`,
//!   `src/disk_parts.rt`; `specs/MemoryDisk.antt`. That it reads as one of its images: `specs/HonestDisk.antt`
//! - the disk that fails for memory alone: `src/reliable_disk.rt`, `specs/ReliableDisk.antt`
//! - the stop of a disk and a host together: `src/shared_stop.rt`, `src/stopped_disk.rt`, `src/stopped_host.rt`, with a
//!   file of specs/ each. How a call meets a stop: `proofs/Meeting.antt`
//! - the link in memory: `src/link.rt`, `specs/MemoryLink.antt`
#![tactic(auto)]

mod calls;
mod clock;
mod contents;
mod disk;
mod disk_calls;
mod disk_parts;
mod fixed_clock;
mod host;
mod link;
mod lists;
mod null_sink;
mod paths;
mod reliable;
mod reliable_disk;
mod reliable_source;
mod shared_stop;
mod sink;
mod source;
mod stop;
mod stopped_disk;
mod stopped_host;
mod variable;

pub use clock::MemoryClock;
pub use contents::HostContents;
pub use disk::MemoryDisk;
pub use disk_calls::{CallOutcome, DiskCall, DiskPart, DiskStop, RecordedCall};
pub use fixed_clock::FixedClock;
pub use host::MemoryHost;
pub use link::MemoryLink;
pub use null_sink::NullSink;
pub use paths::{PathContent, PathEntry};
pub use reliable::ReliableHost;
pub use reliable_disk::ReliableDisk;
pub use reliable_source::ReliableSource;
pub use shared_stop::Turn;
pub use sink::MemorySink;
pub use source::MemorySource;
pub use stop::{Done, Stop};
pub use stopped_disk::StoppedDisk;
pub use stopped_host::StoppedHost;
pub use variable::Variable;
