//! The rules of documents.
ghost use Rattle.std.specs.Prelude.{◌≡◌, ◌≢◌, ◌+◌, ◌<◌, ◌≤◌, ◌^◌, List, length, IfOk, IfErr, vec_len};
ghost use Rattle.dsc_document.specs.Dependencies.{HasDistinctIds, NamesResources};
ghost use Rattle.dsc_document.specs.Places.{HoldsNames};
ghost use Rattle.dsc_document.specs.Rules.{Rules, PartRules, RefusedBy, OneRefusalWins, rule_of, id_at, texts_to_depend_on, known_dependencies};
ghost use Rattle.dsc_document.specs.Tests.{KeepsUpTo};
ghost use Rattle.dsc_document.specs.Sizes.{DocumentInSize};

use crate::aliases::{alias_places, check_aliases};
use crate::assembly::document_of;
use crate::depends::{check_depends_on, check_known};
use crate::headers::{check_one_header, first_header};
use crate::ids::{check_ids, id_places};
use crate::places::Places;
use crate::properties::check_properties;
use crate::{DocError, Document, MAX_RESOURCES};
use mof_values::Instance;
use std::alloc::Global;

/// The document that the instances declare.
///
/// # Errors
///
/// The first rule that is broken, at the least index; see [`DocError`].
pub fn check(alloc: Global, instances: Vec<Instance>) -> Result<Document, DocError>
    requires { vec_len instances < 2 ^ 32 }
    ensures accepted { IfOk result (Rules instances.items) }
    ensures few { IfOk result (λ document. length document.resources < vec_len instances) }
    ensures in_size { vec_len instances ≤ MAX_RESOURCES + 1 → IfOk result DocumentInSize }
    ensures known { IfOk result NamesResources }
    ensures distinct { IfOk result HasDistinctIds }
    ensures refused { IfErr result (RefusedBy instances.items) }
{
    let ids = check_part_rules(alloc, &instances)?;
    check_known(&instances, &ids)?;
    Ok(document_of(alloc, instances)?)
}

/// The document that the instances of a part declare: its resources may depend on those of other parts.
///
/// # Errors
///
/// As of [`check`], but `DependsUnknown`.
pub fn check_part(alloc: Global, instances: Vec<Instance>) -> Result<Document, DocError>
    requires { vec_len instances < 2 ^ 32 }
    ensures accepted { IfOk result (PartRules instances.items) }
    ensures few { IfOk result (λ document. length document.resources < vec_len instances) }
    ensures in_size { vec_len instances ≤ MAX_RESOURCES + 1 → IfOk result DocumentInSize }
    ensures distinct { IfOk result HasDistinctIds }
    ensures refused { IfErr result (RefusedBy instances.items) }
    ensures known { IfErr result (λ refusal. rule_of refusal < known_dependencies) }
{
    let _ids = check_part_rules(alloc, &instances)?;
    Ok(document_of(alloc, instances)?)
}

/// At most one refusal wins: the instances determine what [`check`] answers, but for `Memory`.
pub fn one_refusal_wins()
    ensures { (instances : List Instance) → OneRefusalWins instances }
{}

// The places of the ids, where all rules but the last are kept.
fn check_part_rules(alloc: Global, instances: &[Instance]) -> Result<Places, DocError>
    requires { length instances.now < 2 ^ 32 }
    ensures places { IfOk result (HoldsNames (id_at instances.now)) }
    ensures kept { IfOk result (λ _. KeepsUpTo texts_to_depend_on instances.now) }
    ensures refused { IfErr result (RefusedBy instances.now) }
    ensures known { IfErr result (λ refusal. rule_of refusal < known_dependencies) }
{
    check_properties(instances)?;
    let aliases = alias_places(alloc, instances)?;
    check_aliases(instances, &aliases)?;
    let header = first_header(instances)?;
    check_one_header(instances, header)?;
    check_ids(instances)?;
    let ids = id_places(alloc, instances)?;
    check_depends_on(instances)?;
    Ok(ids)
}
