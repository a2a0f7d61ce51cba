//! Where an event is allowed.
ghost use Rattle.std.specs.Prelude.{◌≡◌, ◌||◌, is_some};
ghost use Rattle.std.specs.List.{list_any};
ghost use Rattle.node_state.specs.Table.{check, is_next, is_unsent, refusal, refusal_of_report};

use crate::{Event, Kept, Node, Why};
use report_log::Report;

impl Node {
    /// Why the event is not allowed, where it is not: the first condition of its row that fails. Takes no memory.
    pub fn why(&self, event: &Event) -> Option<Why>
        ensures { result ≡ refusal self.now event.now }
    {
        let has_agent = self.agent.is_some();
        match event {
            Event::Init(_) => check(self.agent.is_none(), Why::HasAgent, None),
            Event::SetMeta(_) | Event::Stage(_) | Event::Remove(_) => check(
                has_agent,
                Why::NoAgent,
                None,
            ),
            Event::Registered => {
                let server = check(self.meta.server.is_some(), Why::NoServer, None);
                check(has_agent, Why::NoAgent, server)
            }
            Event::Promote(report) => {
                let job = check(is_next(self.next_job, report.job), Why::WrongJob, None);
                check(
                    has_agent,
                    Why::NoAgent,
                    check(self.pending.is_some(), Why::NoPending, job),
                )
            }
            Event::Note(report) | Event::AskReboot(report) => self.why_no_report(report),
            Event::Boot => check(self.reboot, Why::NoReboot, None),
            Event::Sent(job) => check(
                is_any_unsent(self.reports.as_slice(), *job),
                Why::NoReport,
                None,
            ),
            Event::Restore => check(self.previous.is_some(), Why::NoPrevious, None),
        }
    }

    fn why_no_report(&self, report: &Report) -> Option<Why>
        ensures { result ≡ refusal_of_report self.now report.now }
    {
        let job = check(is_next(self.next_job, report.job), Why::WrongJob, None);
        let document = check(self.has_document(), Why::NoDocument, job);
        check(self.agent.is_some(), Why::NoAgent, document)
    }

    fn has_document(&self) -> bool
        ensures { result ≡ (is_some self.now.pending || is_some self.now.current) }
    {
        self.pending.is_some() || self.current.is_some()
    }
}

fn check(holds: bool, why: Why, rest: Option<Why>) -> Option<Why>
    ensures { result ≡ check holds why rest }
{
    if holds { rest } else { Some(why) }
}

fn is_next(next: u64, job: u64) -> bool
    ensures { result ≡ is_next next job }
{
    job == next && job < u64::MAX
}

fn is_any_unsent(reports: &[Kept], job: u64) -> bool
    ensures { result ≡ list_any (is_unsent job) reports.now }
{
    reports.iter().any(|kept| is_unsent(job, kept))
}

fn is_unsent(job: u64, kept: &Kept) -> bool
    ensures { result ≡ is_unsent job kept.now }
{
    kept.report.job == job && !kept.sent
}
