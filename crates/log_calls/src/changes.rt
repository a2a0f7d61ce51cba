//! Many appends, and a rewrite of many bodies.
ghost use Rattle.std.specs.Prelude.{◌≤◌, length};
ghost use Rattle.gate_log.specs.Log.{IsReady};

use dsc_outside::Disk;
use gate_log::{Log, LogError};

/// Appends a body that many times, as long as it fits.
pub fn append_all<D: Disk>(
    log: &mut Log,
    disk: &mut D,
    count: u32,
    body: &[u8],
) -> Result<(), LogError>
    requires size { length body.now ≤ log.old.shape.largest }
    requires of { IsReady D.Disk disk.old log.old }
{
    let Ok(size) = u32::try_from(body.len()) else {
        return Ok(());
    };
    if log.is_spent() {
        return Ok(());
    }
    for _ in 0..count {
        if !log.has_room(size) {
            return Ok(());
        }
        log.append(disk, body)?;
    }
    Ok(())
}

/// Puts a body that many times in place of all that was there, as long as it fits.
pub fn rewrite_all<D: Disk>(
    log: &mut Log,
    disk: &mut D,
    count: u32,
    body: &[u8],
) -> Result<(), LogError>
    requires size { length body.now ≤ log.old.shape.largest }
    requires bank { 1 ≤ log.old.shape.bank }
    requires of { IsReady D.Disk disk.old log.old }
{
    let Ok(size) = u32::try_from(body.len()) else {
        return Ok(());
    };
    if log.is_spent() {
        return Ok(());
    }
    log.begin_rewrite();
    for _ in 0..count {
        if !log.has_room_to_put(size) {
            break;
        }
        log.put(disk, body)?;
    }
    log.finish_rewrite(disk)
}
