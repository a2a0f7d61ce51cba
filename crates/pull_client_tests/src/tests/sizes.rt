//! The size of the message of a report, which is to be within 131,072 bytes.
use super::made::{AGENT, largest_report};
use mof_values::Memory;
use pull_client::message_of;
use pull_messages::write_report;
use report_log::{Report, is_in_size};
use std::alloc::Global;

fn size_of(alloc: Global, report: &Report) -> Result<usize, Memory> {
    if !is_in_size(report) {
        return Ok(0);
    }
    let message = message_of(alloc, report, AGENT)?;
    Ok(write_report(alloc, &message)?.len())
}

fn has_size(alloc: Global, size: usize) -> bool {
    match largest_report(alloc) {
        Ok(report) => matches!(size_of(alloc, &report), Ok(found) if found == size),
        Err(_) => false,
    }
}

// The size is another program's.
#[test]
fn the_longest_message_is_within_the_limit_of_a_body(rt: HostRuntime) {
    assert!(rt; has_size(rt.alloc(), 115_646));
}
