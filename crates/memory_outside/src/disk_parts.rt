//! What a stop leaves of a disk in memory.
ghost use Rattle.std.specs.Prelude.{◌≡◌, [], OnOk, length, min};
ghost use Rattle.dsc_outside.specs.Images.{DiskState};
ghost use Rattle.memory_outside.specs.MemoryDisk.{filled, is_done_sync, range_filled, range_of, state_after};

use crate::disk_calls::{CallOutcome, DiskCall, RecordedCall, do_outcome};
use std::alloc::AllocError;

/// The calls before the last sync that was done, or none where there was none.
pub fn until_sync(calls: &[RecordedCall]) -> &[RecordedCall]
    ensures { (state : DiskState) → state.held ≡ state.synced
        → (state_after result.now state).held ≡ (state_after calls.now state).synced }
{
    let mut end = calls.len();
    while end > 0 {
        end -= 1;
        if is_sync(&calls[end]) {
            return &calls[..end];
        }
    }
    &calls[..0]
}

/// Does the calls in the bytes again, but those that failed.
pub fn replay(bytes: &mut Vec<u8>, calls: &[RecordedCall]) -> Result<(), AllocError>
    ensures { OnOk result ((state : DiskState) → state.held ≡ bytes.old.items
        → bytes.new.items ≡ (state_after calls.now state).held) }
{
    for recorded in calls {
        do_outcome(bytes, &recorded.call, recorded.outcome)?;
    }
    Ok(())
}

/// Puts the byte at each place that was written since the last sync that was done.
pub fn fill_ranges(bytes: &mut [u8], calls: &[RecordedCall], byte: u8)
    ensures { (state : DiskState) → state.ranges ≡ []
        → bytes.new ≡ filled byte (state_after calls.now state).ranges bytes.old }
{
    let mut end = calls.len();
    while end > 0 {
        end -= 1;
        if is_sync(&calls[end]) {
            return;
        }
        fill_range(bytes, &calls[end], byte);
    }
}

fn is_sync(recorded: &RecordedCall) -> bool
    ensures { result ≡ is_done_sync recorded.now.outcome recorded.now.call }
{
    match (recorded.outcome, &recorded.call) {
        (CallOutcome::Done, DiskCall::Sync) => true,
        _ => false,
    }
}

// Puts the byte at each place that the call wrote, if it is a write that was begun.
fn fill_range(bytes: &mut [u8], recorded: &RecordedCall, byte: u8)
    ensures { bytes.new ≡
        filled byte (range_of recorded.now.outcome recorded.now.call) bytes.old }
{
    let DiskCall::WriteAt { at, bytes: piece } = &recorded.call else {
        return;
    };
    if recorded.outcome != CallOutcome::Failed {
        fill(bytes, *at as usize, piece.as_slice().len(), byte);
    }
}

fn fill(bytes: &mut [u8], at: usize, count: usize, byte: u8)
    ensures { bytes.new ≡ range_filled byte (at, count) bytes.old }
{
    let from = at.min(bytes.len());
    let count = count.min(bytes.len() - from);
    bytes[from..from + count].fill(byte);
}
