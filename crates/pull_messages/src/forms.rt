//! The five forms of targets, in characters.
ghost use Rattle.std.specs.Prelude.{◌≡◌, ◌==◌, ◌∷◌, [], IfOk, length, codes, if◌then◌else◌};
ghost use Rattle.pull_messages.specs.Spelling.{Spells};
ghost use Rattle.pull_messages.specs.Targets.{IsPart, SpellsTarget, agent_parts, word as word_part};
ghost use Rattle.pull_messages.specs.Stops.{StopsAt, EndsAt, IfLeft, Takes, IsAgentForm, IsContentForm, IsModuleForm, IsAnyTarget, better_of};

use crate::Target;
use crate::parts::{Stop, agent, quoted, word};
use std::alloc::Global;

/// The target that the characters spell, or how many follow the longest front with which some target begins.
pub fn spelled_target(alloc: Global, chars: &[char]) -> Result<Target, Stop>
    ensures ok { IfOk result (λ target. SpellsTarget target chars.now) }
    ensures bad { IfLeft result (EndsAt IsAnyTarget chars.now) }
{
    let node = node(alloc, chars);
    let action = action(alloc, chars);
    let send_report = send_report(alloc, chars);
    let content = content(alloc, chars);
    let module = module(alloc, chars);
    better(
        node,
        better(action, better(send_report, better(content, module))),
    )
}

// The target, or the longer front.
fn better(one: Result<Target, Stop>, other: Result<Target, Stop>) -> Result<Target, Stop>
    ensures { result ≡ better_of one other }
{
    match (one, other) {
        (Ok(target), _) => Ok(target),
        (Err(_), Ok(target)) => Ok(target),
        (Err(Stop::Left(left)), Err(Stop::Left(after))) => Err(Stop::Left(left.min(after))),
        (Err(Stop::Memory), Err(_)) | (Err(_), Err(Stop::Memory)) => Err(Stop::Memory),
    }
}

fn node(alloc: Global, chars: &[char]) -> Result<Target, Stop>
    ensures ok { IfOk result (λ target. SpellsTarget target chars.now) }
    ensures bad { IfLeft result (EndsAt (IsAgentForm (codes "')")) chars.now) }
{
    let (id, rest) = agent_form(alloc, chars, "')")?;
    finished(Target::Node(id), rest)
}

fn action(alloc: Global, chars: &[char]) -> Result<Target, Stop>
    ensures ok { IfOk result (λ target. SpellsTarget target chars.now) }
    ensures bad { IfLeft result (EndsAt (IsAgentForm (codes "')/GetDscAction")) chars.now) }
{
    let (id, rest) = agent_form(alloc, chars, "')/GetDscAction")?;
    finished(Target::Action(id), rest)
}

fn send_report(alloc: Global, chars: &[char]) -> Result<Target, Stop>
    ensures ok { IfOk result (λ target. SpellsTarget target chars.now) }
    ensures bad { IfLeft result (EndsAt (IsAgentForm (codes "')/SendReport")) chars.now) }
{
    let (id, rest) = agent_form(alloc, chars, "')/SendReport")?;
    finished(Target::SendReport(id), rest)
}

fn content(alloc: Global, chars: &[char]) -> Result<Target, Stop>
    ensures ok { IfOk result (λ target. SpellsTarget target chars.now) }
    ensures bad { IfLeft result (EndsAt IsContentForm chars.now) }
{
    let (id, rest) = agent_form(alloc, chars, "')/Configurations(ConfigurationName=")?;
    let (name, rest) = quoted(alloc, rest, ')')?;
    let rest = word(rest, "/ConfigurationContent")?;
    finished(Target::Content(id, name), rest)
}

fn module(alloc: Global, chars: &[char]) -> Result<Target, Stop>
    ensures ok { IfOk result (λ target. SpellsTarget target chars.now) }
    ensures bad { IfLeft result (EndsAt IsModuleForm chars.now) }
{
    let rest = word(chars, "/PSDSCPullServer.svc/Modules(ModuleName=")?;
    let (name, rest) = quoted(alloc, rest, ',')?;
    let rest = word(rest, "ModuleVersion=")?;
    let (version, rest) = quoted(alloc, rest, ')')?;
    let rest = word(rest, "/ModuleContent")?;
    finished(Target::Module(name, version), rest)
}

/// The target, where nothing stands after it.
pub fn finished<T: Drop>(target: T, rest: &[char]) -> Result<T, Stop>
    ensures { result ≡ (if length rest.now == 0 then Ok target else Err (Stop.Left (length rest.now))) }
{
    if rest.is_empty() {
        Ok(target)
    } else {
        Err(Stop::Left(rest.len()))
    }
}

/// The path of an agent up to that word.
pub fn agent_form<'c>(
    alloc: Global,
    chars: &'c [char],
    end: &str,
) -> Result<(u128, &'c [char]), Stop>
    ensures taken { IfOk result (λ x. Takes (Spells IsPart (agent_parts x.0 (word_part end.now ∷ []))) chars.now x.1.now) }
    ensures stop { IfLeft result (StopsAt (IsAgentForm end.now) chars.now) }
{
    let rest = word(chars, "/PSDSCPullServer.svc/Nodes(AgentId='")?;
    let (id, rest) = agent(alloc, rest)?;
    let rest = word(rest, end)?;
    Ok((id, rest))
}
