//! The two forms of targets of the fleet, in characters.
ghost use Rattle.std.specs.Prelude.{IfOk, codes};
ghost use Rattle.pull_messages.specs.FleetTargets.{SpellsFleetTarget};
ghost use Rattle.pull_messages.specs.Stops.{EndsAt, IfLeft, IsAnyFleetTarget, IsReportForm, IsWord};

use crate::FleetTarget;
use crate::forms::{agent_form, finished};
use crate::parts::{Stop, agent, word};
use std::alloc::Global;

/// The target that the characters spell.
pub fn spelled_fleet_target(alloc: Global, chars: &[char]) -> Result<FleetTarget, Stop>
    ensures ok { IfOk result (λ target. SpellsFleetTarget target chars.now) }
    ensures none { IfLeft result (λ _. IsAnyFleetTarget chars.now → ⊥) }
{
    match report(alloc, chars) {
        Ok(target) => Ok(target),
        Err(Stop::Left(_)) => summary(chars),
        Err(Stop::Memory) => Err(Stop::Memory),
    }
}

fn report(alloc: Global, chars: &[char]) -> Result<FleetTarget, Stop>
    ensures ok { IfOk result (λ target. SpellsFleetTarget target chars.now) }
    ensures bad { IfLeft result (EndsAt IsReportForm chars.now) }
{
    let (id, rest) = agent_form(alloc, chars, "')/Reports(JobId='")?;
    let (job, rest) = agent(alloc, rest)?;
    let rest = word(rest, "')")?;
    finished(FleetTarget::Report(id, job), rest)
}

fn summary(chars: &[char]) -> Result<FleetTarget, Stop>
    ensures ok { IfOk result (λ target. SpellsFleetTarget target chars.now) }
    ensures bad { IfLeft result (EndsAt (IsWord (codes "/PSDSCPullServer.svc/Fleet")) chars.now) }
{
    let rest = word(chars, "/PSDSCPullServer.svc/Fleet")?;
    finished(FleetTarget::Summary, rest)
}
