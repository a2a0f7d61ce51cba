//! Lays new parts over those that a node holds.
ghost use Rattle.std.specs.Prelude.{◌≡◌, [], ◌∷◌, IfErr, IfOk, filter_map, option_copied};
ghost use Rattle.mof_values.specs.Fold.{same_name};
ghost use Rattle.meta_config.specs.Parts.{IsPartName};
ghost use Rattle.node_state.specs.Metas.{IsNodeMeta};
ghost use Rattle.node_state.specs.StagedParts.{parts_of};
ghost use Rattle.node_state.specs.Staging.{AreFitting};
ghost use Rattle.partial_merge.specs.Merged.{IsDocumentOf};
ghost use Rattle.node_pull.specs.Laying.{AreLaid, AreLaidRefused, first_under, laid_over, part_over};

use crate::names::part_names;
use depend_order::OrderedDocument;
use meta_config::Meta;
use mof_values::{Memory, Text, folds_equal};
use node_state::{StageError, Staged, staged_in_order};
use partial_merge::Part;
use std::alloc::Global;

/// The list of parts of a node that is given this part of one of its partial configurations: with it, for each other partial
/// configuration, in their order, the part that is held, where there is one; together with the document that they are merged
/// to, and its order.
///
/// # Errors
///
/// Those of [`staged_in_order`](node_state::staged_in_order), of that list.
pub fn lay_push(
    alloc: Global,
    meta: &Meta,
    part: Part,
    held: &[Part],
) -> Result<(Staged, OrderedDocument), StageError>
    requires meta { IsNodeMeta meta.now }
    requires declared { IsPartName meta.now.partials part.name }
    ensures laid { IfOk result (λ pair. AreLaid meta.now (part ∷ []) held.now (parts_of pair.0)) }
    ensures document { IfOk result (λ pair. IsDocumentOf (parts_of pair.0) pair.1) }
    ensures fits { IfOk result (λ pair. AreFitting meta.now (parts_of pair.0)) }
    ensures refused { IfErr result (AreLaidRefused meta.now (part ∷ []) held.now) }
{
    let names = part_names(alloc, meta)?;
    let new = vec![in alloc; part]?;
    let parts = laid_over(alloc, &names, &new, held)?;
    staged_in_order(alloc, meta, parts)
}

/// For each of the names, in their order, its new part, or else the one that is held, or else none.
pub(crate) fn laid_over(
    alloc: Global,
    names: &[Text],
    new: &[Part],
    held: &[Part],
) -> Result<Vec<Part>, Memory>
    ensures { IfOk result (λ parts. parts.items ≡ laid_over names.now new.now held.now) }
{
    let mut parts = Vec::new(alloc);
    let mut left = names;
    while let [name, rest @ ..] = left {
        if let Some(part) = part_over(new, held, name) {
            parts.push(part.copy()?)?;
        }
        left = rest;
    }
    Ok(parts)
}

fn part_over<'a>(new: &'a [Part], held: &'a [Part], name: &Text) -> Option<&'a Part>
    ensures { option_copied result ≡ part_over new.now held.now name.now }
{
    match first_under(new, name) {
        Some(part) => Some(part),
        None => first_under(held, name),
    }
}

// The first of the parts that has the name, by fold.
fn first_under<'a>(parts: &'a [Part], name: &Text) -> Option<&'a Part>
    ensures { option_copied result ≡ first_under parts.now name.now }
{
    parts.iter().find(|part| is_under(*part, name))
}

// Names of parts compare by fold.
fn is_under(part: &Part, name: &Text) -> bool
    ensures { result ≡ same_name part.now.name name.now }
{
    folds_equal(part.name.as_slice(), name.as_slice())
}
