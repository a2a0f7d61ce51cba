//! What an event makes of a node.
ghost use Rattle.std.specs.Prelude.{◌≡◌, ◌<◌, ◌^◌, ◌-◌, ◌∷◌, ◌++◌, ◌≤◌, [], None, IfOk, map, vec_len};
ghost use Rattle.node_state.specs.Supply.{Supplies, IsRoom};
ghost use Rattle.node_state.specs.Table.{after, marked, new_node, newest, promoted, refusal, unsent, with_report, without};
ghost use Rattle.node_state.specs.declared.limits.TheConstants.{OLDER_REPORTS};

use crate::limits::OLDER_REPORTS;
use crate::supply::{Room, Supply};
use crate::{Event, Kept, Node, Stage};
use meta_config::Meta;
use mof_values::{Items, Memory};
use report_log::Report;
use std::alloc::Global;

impl Node {
    /// A node that nothing has happened to. Takes no memory.
    pub fn new(alloc: Global) -> Node
        ensures { result ≡ new_node }
    {
        Node {
            agent: None,
            meta: Meta::usual(alloc),
            registered: false,
            pending: None,
            current: None,
            previous: None,
            reboot: false,
            next_job: 1,
            reports: Items::of(Vec::new(alloc)),
        }
    }

    /// The memory that an allowed event needs.
    pub fn supply(&self, alloc: Global, event: &Event) -> Result<Supply, Memory>
        requires allowed { refusal self.now event.now ≡ None }
        ensures { IfOk result (Supplies self.now event.now) }
    {
        match (event, &self.previous) {
            (Event::Promote(_) | Event::Note(_) | Event::AskReboot(_), _) => Ok(Supply::Room(
                Room::new(alloc)?,
            )),
            (Event::Restore, Some(parts)) => Ok(Supply::Shared(parts.share()?)),
            _ => Ok(Supply::Nothing),
        }
    }

    /// The node after an allowed event. Takes no memory but what is supplied.
    pub fn apply(self, event: Event, supply: Supply) -> Node
        requires allowed { refusal self event ≡ None }
        requires supplied { Supplies self event supply }
        ensures { result ≡ after self event }
    {
        match event {
            Event::Init(agent) => Node {
                agent: Some(agent),
                ..self
            },
            Event::SetMeta(meta) => Node {
                meta,
                registered: false,
                ..self
            },
            Event::Registered => Node {
                registered: true,
                ..self
            },
            Event::Stage(staged) => Node {
                pending: Some(staged.into_parts()),
                ..self
            },
            Event::Promote(report) => self.promoted().with_report(report, supply),
            Event::Note(report) => self.with_report(report, supply),
            Event::AskReboot(report) => Node {
                reboot: true,
                ..self
            }
            .with_report(report, supply),
            Event::Boot => Node {
                reboot: false,
                ..self
            },
            Event::Sent(job) => Node {
                reports: all_marked(self.reports, job),
                ..self
            },
            Event::Remove(stage) => self.without(stage),
            Event::Restore => match supply {
                Supply::Shared(parts) => Node {
                    pending: Some(parts),
                    ..self
                },
                Supply::Nothing | Supply::Room(_) => unreachable!(),
            },
        }
    }

    fn promoted(self) -> Node
        ensures { result ≡ promoted self }
    {
        Node {
            previous: self.current,
            current: self.pending,
            pending: None,
            ..self
        }
    }

    fn without(self, stage: Stage) -> Node
        ensures { result ≡ without stage self }
    {
        match stage {
            Stage::Pending => Node {
                pending: None,
                ..self
            },
            Stage::Current => Node {
                current: None,
                ..self
            },
            Stage::Previous => Node {
                previous: None,
                ..self
            },
        }
    }

    fn with_report(self, report: Report, supply: Supply) -> Node
        requires job { self.next_job < 2 ^ 64 - 1 }
        requires room { IsRoom supply }
        ensures { result ≡ with_report report self }
    {
        match supply {
            Supply::Room(room) => Node {
                next_job: self.next_job + 1,
                reports: kept_in(room, self.reports, report),
                ..self
            },
            Supply::Nothing | Supply::Shared(_) => unreachable!(),
        }
    }
}

// The newest reports, and this one.
fn kept_in(room: Room, reports: Items<Kept>, report: Report) -> Items<Kept>
    ensures { result ≡ newest OLDER_REPORTS reports ++ unsent report ∷ [] }
{
    let mut kept = room.reports;
    let mut newest = newest_of(reports.into_vec());
    match kept.append(&mut newest) {
        Ok(()) => {}
        Err(_) => unreachable!(),
    }
    kept.push_reserved(Kept {
        report,
        sent: false,
    });
    Items::of(kept)
}

// The newest reports, of which one more may be kept.
fn newest_of(reports: Vec<Kept>) -> Vec<Kept>
    ensures newest { result.items ≡ newest OLDER_REPORTS reports.items }
    ensures few { vec_len result ≤ OLDER_REPORTS }
{
    let mut left = reports;
    while left.len() > OLDER_REPORTS {
        left.remove(0);
    }
    left
}

fn all_marked(reports: Items<Kept>, job: u64) -> Items<Kept>
    ensures { result ≡ map (marked job) reports }
{
    let mut kept = reports.into_vec();
    mark_all(&mut kept, job);
    Items::of(kept)
}

fn mark_all(reports: &mut [Kept], job: u64)
    ensures { reports.new ≡ map (marked job) reports.old }
{
    for kept in reports.iter_mut() {
        mark(kept, job);
    }
}

fn mark(kept: &mut Kept, job: u64)
    ensures { kept.new ≡ marked job kept.old }
{
    if kept.report.job == job {
        kept.sent = true;
    }
}
