//! The calls of a disk in memory, as it keeps them.
ghost use Rattle.std.specs.Prelude.{◌≡◌, ◌<◌, ◌≤◌, ◌++◌, ◌∷◌, [], IfOk, IsOk, OnErr, OnOk, vec_capacity, vec_len};
ghost use Rattle.dsc_outside.specs.Disk.{written};
ghost use Rattle.memory_outside.specs.MemoryDisk.{Settles, bytes_after, changed, left_after, outcome_of};

use crate::calls::Calls;
use crate::stop::Course;
use dsc_outside::Failed;
use mof_values::Bytes;
use std::alloc::AllocError;

/// What a disk was asked.
#[derive(Debug, Drop, PartialEq)]
pub enum DiskCall {
    Length,

    /// To read from that place on, into a slice of `room` bytes.
    ReadAt { at: u64, room: usize },

    WriteAt { at: u64, bytes: Bytes },

    Cut { to: u64 },

    Sync,
}

/// How a call of a disk in memory went.
#[derive(Clone, Copy, Debug, PartialEq, Eq)]
pub enum CallOutcome {
    Done,

    /// It failed, and nothing was done.
    Failed,

    /// It failed, and the stop came in it.
    Stopped,
}

/// A call of a disk in memory, and how it went.
#[derive(Debug, Drop, PartialEq)]
pub struct RecordedCall {
    pub call: DiskCall,
    pub outcome: CallOutcome,
}

/// A stop of a disk: from a call on each call fails, and nothing more is done.
#[derive(Clone, Copy, Debug, PartialEq, Eq)]
pub struct DiskStop {
    /// The number of the call that it comes in, counted from 0.
    pub call: u64,

    /// What it leaves.
    pub part: DiskPart,
}

/// What a stop leaves of the changes since the last sync that succeeded. The change that it comes in is one of them.
#[derive(Clone, Copy, Debug, PartialEq, Eq)]
pub enum DiskPart {
    /// None of them: what that sync left.
    Nothing,

    /// All of them.
    Whole,

    /// The length that they lead to, and this byte at each place that was written.
    Filled(u8),
}

// How a call is recorded.
pub fn recorded_outcome(course: Course) -> CallOutcome
    ensures { result ≡ outcome_of course }
{
    match course {
        Course::Runs => CallOutcome::Done,
        Course::Fails => CallOutcome::Failed,
        Course::StopsHalf => CallOutcome::Stopped,
        Course::StopsWhole => CallOutcome::Stopped,
    }
}

/// What is left of the changes once a call has gone so: the stop's part, where it is the one that the stop comes in.
pub fn left_by_call(outcome: CallOutcome, left: DiskPart, stop_part: DiskPart) -> DiskPart
    ensures { result ≡ left_after outcome left stop_part }
{
    match outcome {
        CallOutcome::Done | CallOutcome::Failed => left,
        CallOutcome::Stopped => stop_part,
    }
}

/// The answer of a call that was to go so, and was tried. Where it ran out of memory, `short` is set.
pub fn settle(
    outcome: CallOutcome,
    tried: Result<(), AllocError>,
    short: &mut bool,
    calls: &mut Calls,
) -> Result<(), Failed>
    ensures answer { Settles outcome tried short.old calls.old result short.new calls.new }
    ensures later { calls.old.faults ≤ calls.new.faults }
{
    match (outcome, tried) {
        (CallOutcome::Done, Ok(())) => Ok(()),
        (CallOutcome::Done, Err(AllocError)) => {
            *short = true;
            calls.add_fault();
            Err(Failed)
        }
        (_, Ok(())) => Err(Failed),
        (_, Err(AllocError)) => {
            *short = true;
            Err(Failed)
        }
    }
}

/// Records the call that was asked, and does it in the bytes unless it failed. Without memory both stay, as where there
/// was none for the call itself.
pub fn record_call(
    bytes: &mut Vec<u8>,
    calls: &mut Vec<RecordedCall>,
    asked: Result<DiskCall, AllocError>,
    outcome: CallOutcome,
) -> Result<(), AllocError>
    ensures calls { OnOk result (IfOk asked (λ call. calls.new.items ≡
        calls.old.items ++ record { call = call; outcome = outcome } ∷ [])) }
    ensures bytes { OnOk result (IfOk asked (λ call.
        bytes.new.items ≡ bytes_after outcome call bytes.old.items)) }
    ensures asked { OnOk result (IsOk asked) }
    ensures err { OnErr result
        ((calls.new.items ≡ calls.old.items) × (bytes.new.items ≡ bytes.old.items)) }
{
    let call = asked?;
    calls.reserve(1)?;
    do_outcome(bytes, &call, outcome)?;
    push(calls, RecordedCall { call, outcome });
    Ok(())
}

// Adds a call for which capacity is reserved.
fn push(calls: &mut Vec<RecordedCall>, call: RecordedCall)
    requires { vec_len calls.old < vec_capacity calls.old }
    ensures { calls.new.items ≡ calls.old.items ++ call ∷ [] }
{
    match calls.push(call) {
        Ok(()) => {}
        Err(_) => unreachable!(),
    }
}

/// Does a call that went so in the bytes. Without memory they stay.
pub fn do_outcome(
    bytes: &mut Vec<u8>,
    call: &DiskCall,
    outcome: CallOutcome,
) -> Result<(), AllocError>
    ensures ok { OnOk result (bytes.new.items ≡ bytes_after outcome call.now bytes.old.items) }
    ensures err { OnErr result (bytes.new.items ≡ bytes.old.items) }
{
    match outcome {
        CallOutcome::Done | CallOutcome::Stopped => do_call(bytes, call),
        CallOutcome::Failed => Ok(()),
    }
}

fn do_call(bytes: &mut Vec<u8>, call: &DiskCall) -> Result<(), AllocError>
    ensures ok { OnOk result (bytes.new.items ≡ changed call.now bytes.old.items) }
    ensures err { OnErr result (bytes.new.items ≡ bytes.old.items) }
{
    match call {
        DiskCall::WriteAt { at, bytes: piece } => write(bytes, *at as usize, piece.as_slice()),
        DiskCall::Cut { to } => {
            bytes.truncate(*to as usize);
            Ok(())
        }
        DiskCall::Length => Ok(()),
        DiskCall::ReadAt { at: _, room: _ } => Ok(()),
        DiskCall::Sync => Ok(()),
    }
}

// Puts the piece over what is there from that place on, and past the end.
fn write(bytes: &mut Vec<u8>, at: usize, piece: &[u8]) -> Result<(), AllocError>
    ensures ok { OnOk result (bytes.new.items ≡ written at piece.now bytes.old.items) }
    ensures err { OnErr result (bytes.new.items ≡ bytes.old.items) }
{
    let at = at.min(bytes.len());
    let over = piece.len().min(bytes.len() - at);
    bytes.extend_from_slice(&piece[over..])?;
    bytes[at..at + over].copy_from_slice(&piece[..over]);
    Ok(())
}
