//! The plan of a command, with its document merged, before the store is touched.
ghost use Rattle.std.specs.Prelude.{◌≡◌, [], ◌∷◌, IfErr, IfOk, None, Some};
ghost use Rattle.node_state.specs.StagedParts.{parts_of};
ghost use Rattle.partial_merge.specs.Merged.{IsDocumentOf};
ghost use Rattle.partial_merge.specs.Parts.{unnamed_part};
ghost use Rattle.partial_merge.specs.Refused.{IsFaultAt, Refused};
ghost use Rattle.dsc_node.specs.Commands.{IsPlanOf, IsUnmerged};

use crate::command::Command;
use crate::plan::{Bring, Follows, Needs, Plan, Printed};
use meta_config::Meta;
use mof_values::{Bytes, Text};
use node_state::{Event, StageError, Staged, staged_in_order};
use partial_merge::{MergeError, OrderedDocument, check_text, part_of};
use std::alloc::Global;

/// What the command asks of a start: the table of commands. The bytes of a push are merged as one part with an empty name; under a
/// name they are checked alone.
pub(crate) fn plan_of(alloc: Global, command: Command) -> Result<Plan, MergeError>
    ensures ok { IfOk result (IsPlanOf command) }
    ensures refused { IfErr result (IsUnmerged command) }
{
    match command {
        Command::Init(agent) => {
            let event = Event::Init(agent);
            Ok(Plan::prints(Needs::NoAgent, Bring::Event(event), Printed::Done))
        }
        Command::Meta(meta) => {
            let event = Event::SetMeta(meta);
            Ok(Plan::prints(Needs::Agent, Bring::Event(event), Printed::Done))
        }
        Command::Register(name) => Ok(Plan {
            needs: Needs::Server,
            waits: false,
            reads_clock: true,
            brings: Bring::Registration(name),
            stops: false,
            follows: Follows::Text(Printed::Done),
        }),
        Command::Pull => Ok(Plan::runs(Needs::Pull, Bring::Pull)),
        Command::Push(name, bytes) => match name {
            None => whole_plan(alloc, bytes),
            Some(name) => part_plan(alloc, name, bytes),
        },
        Command::Consistency => Ok(Plan::runs(Needs::Run, Bring::Nothing)),
        Command::Boot => Ok(Plan {
            needs: Needs::Run,
            waits: false,
            reads_clock: true,
            brings: Bring::Boot,
            stops: true,
            follows: Follows::Run,
        }),
        Command::Get => Ok(Plan::prints(Needs::Agent, Bring::Nothing, Printed::Node)),
        Command::Restore => Ok(Plan::runs(Needs::Previous, Bring::Event(Event::Restore))),
        Command::Remove(stage) => {
            let event = Event::Remove(stage);
            Ok(Plan::prints(Needs::Agent, Bring::Event(event), Printed::Done))
        }
        Command::Reports => Ok(Plan::prints(Needs::Agent, Bring::Nothing, Printed::Reports)),
    }
}

// A push without a name.
fn whole_plan(alloc: Global, bytes: Bytes) -> Result<Plan, MergeError>
    ensures ok { IfOk result (IsPlanOf (Command.Push None bytes)) }
    ensures refused { IfErr result (Refused (unnamed_part bytes ∷ [])) }
{
    let (staged, document) = staged_document(alloc, bytes)?;
    Ok(Plan::runs(Needs::NoPartials, Bring::Push { staged, document }))
}

// A push of the part of a partial configuration, whose document is checked by the rules of parts.
fn part_plan(alloc: Global, name: Text, bytes: Bytes) -> Result<Plan, MergeError>
    ensures ok { IfOk result (IsPlanOf (Command.Push (Some name) bytes)) }
    ensures refused { IfErr result (IsFaultAt 0 bytes) }
{
    check_text(alloc, bytes.as_slice())?;
    let needs = Needs::PushedPartial(name.copy()?);
    Ok(Plan::runs(needs, Bring::PushPart { name, bytes }))
}

fn staged_document(alloc: Global, bytes: Bytes) -> Result<(Staged, OrderedDocument), MergeError>
    ensures ok { IfOk result (λ pair. parts_of pair.0 ≡ unnamed_part bytes ∷ []) }
    ensures document { IfOk result (λ pair. IsDocumentOf (parts_of pair.0) pair.1) }
    ensures refused { IfErr result (Refused (unnamed_part bytes ∷ [])) }
{
    let name = Text::of(Vec::new(alloc));
    let part = part_of(alloc, name, bytes)?;
    let parts = vec![in alloc; part]?;
    match staged_in_order(alloc, &Meta::usual(alloc), parts) {
        Ok(pair) => Ok(pair),
        Err(StageError::Merge(error)) => Err(error),
        Err(StageError::Memory) => Err(MergeError::Memory),
        Err(StageError::Fit(_)) | Err(StageError::TooLong { .. }) => unreachable!(),
    }
}
