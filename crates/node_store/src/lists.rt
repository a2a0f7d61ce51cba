//! Lists that bodies named by digests, while a store is opened: each different one is merged once, however often it is named.
ghost use Rattle.std.specs.Prelude.{◌≡◌, IfOk, IfSome, OnOk};
ghost use Rattle.node_state.specs.Lists.{IsStaged};
ghost use Rattle.node_store.specs.Known.{AddsKnown, IsKnownAs};

use crate::by_digests::put_stage_by_digests;
use crate::known_list::KnownList;
use mof_values::Memory;
use node_state::SharedParts;
use std::alloc::Global;

/// The list that the Stage names, where it is one of these.
pub fn known_as(lists: &[KnownList], stage: &[u8]) -> Result<Option<SharedParts>, Memory>
    ensures { IfOk result (λ found. IfSome found (IsKnownAs lists.now stage.now)) }
{
    let mut left = lists;
    while let [list, rest @ ..] = left {
        if list.stage.as_slice() == stage {
            return Ok(Some(list.parts.share()?));
        }
        left = rest;
    }
    Ok(None)
}

/// Keeps a list with the others.
pub fn keep(alloc: Global, lists: &mut Vec<KnownList>, parts: &SharedParts) -> Result<(), Memory>
    requires { IsStaged parts.now }
    ensures { OnOk result (AddsKnown lists.old.items parts.now lists.new.items) }
{
    let mut stage = Vec::new(alloc);
    put_stage_by_digests(&mut stage, parts.as_slice())?;
    let parts = parts.share()?;
    lists.push(KnownList { stage, parts })?;
    Ok(())
}
