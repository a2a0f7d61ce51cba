//! The node after an event, looked at before the event is applied. Nothing here takes memory.
ghost use Rattle.std.specs.Prelude.{◌≡◌, ◌++◌, map, None, option_map};
ghost use Rattle.node_state.specs.Table.{after, newest, refusal};
ghost use Rattle.node_store.specs.Next.{added, kept_before, sent_in};

use node_state::{Event, Kept, Node, OLDER_REPORTS, SharedParts, Stage};
use partial_merge::Part;
use report_log::Report;

/// The agent after the event.
pub fn agent_after(node: &Node, event: &Event) -> Option<u128>
    ensures { result ≡ (after node.now event.now).agent }
{
    match event {
        Event::Init(agent) => Some(*agent),
        _ => node.agent,
    }
}

/// Whether the agent is registered after the event.
pub fn registered_after(node: &Node, event: &Event) -> bool
    ensures { result ≡ (after node.now event.now).registered }
{
    match event {
        Event::SetMeta(_) => false,
        Event::Registered => true,
        _ => node.registered,
    }
}

/// Whether a reboot is asked for after the event.
pub fn reboot_after(node: &Node, event: &Event) -> bool
    ensures { result ≡ (after node.now event.now).reboot }
{
    match event {
        Event::AskReboot(_) => true,
        Event::Boot => false,
        _ => node.reboot,
    }
}

/// The next job after an allowed event.
pub fn next_job_after(node: &Node, event: &Event) -> u64
    requires allowed { refusal node.now event.now ≡ None }
    ensures { result ≡ (after node.now event.now).next_job }
{
    match event {
        Event::Promote(_) | Event::Note(_) | Event::AskReboot(_) => node.next_job + 1,
        _ => node.next_job,
    }
}

/// Pending after the event.
pub fn pending_after<'a>(node: &'a Node, event: &'a Event) -> Option<&'a [Part]>
    ensures { option_map (λ parts. parts.now) result ≡ (after node.now event.now).pending }
{
    match event {
        Event::Stage(staged) => Some(staged.parts()),
        Event::Promote(_) | Event::Remove(Stage::Pending) => None,
        Event::Restore => parts_of(&node.previous),
        _ => parts_of(&node.pending),
    }
}

/// Current after the event.
pub fn current_after<'a>(node: &'a Node, event: &Event) -> Option<&'a [Part]>
    ensures { option_map (λ parts. parts.now) result ≡ (after node.now event.now).current }
{
    match event {
        Event::Promote(_) => parts_of(&node.pending),
        Event::Remove(Stage::Current) => None,
        _ => parts_of(&node.current),
    }
}

/// Previous after the event.
pub fn previous_after<'a>(node: &'a Node, event: &Event) -> Option<&'a [Part]>
    ensures { option_map (λ parts. parts.now) result ≡ (after node.now event.now).previous }
{
    match event {
        Event::Promote(_) => parts_of(&node.current),
        Event::Remove(Stage::Previous) => None,
        _ => parts_of(&node.previous),
    }
}

fn parts_of(slot: &Option<SharedParts>) -> Option<&[Part]>
    ensures { option_map (λ parts. parts.now) result ≡ slot.now }
{
    match slot {
        Some(parts) => Some(parts.as_slice()),
        None => None,
    }
}

/// The reports that are kept before one that the event adds.
pub fn kept_after<'a>(node: &'a Node, event: &Event) -> &'a [Kept]
    ensures { result.now ≡ kept_before node.now event.now }
{
    let reports = node.reports.as_slice();
    match event {
        Event::Promote(_) | Event::Note(_) | Event::AskReboot(_) => {
            &reports[reports.len().saturating_sub(OLDER_REPORTS)..]
        }
        _ => reports,
    }
}

/// The job of the report that the event marks as sent.
pub fn sent_in(event: &Event) -> Option<u64>
    ensures { result ≡ sent_in event.now }
{
    match event {
        Event::Sent(job) => Some(*job),
        _ => None,
    }
}

/// The report that the event adds.
pub fn added_in(event: &Event) -> Option<&Report>
    ensures { option_map (λ report. report.now) result ≡ added event.now }
{
    match event {
        Event::Promote(report) | Event::Note(report) | Event::AskReboot(report) => Some(report),
        _ => None,
    }
}
