//! Bytes to a meta-configuration.
ghost use Rattle.std.specs.Prelude.{◌≡◌, ◌≢◌, ◌<◌, ◌^◌, IfOk, IfErr, length};
ghost use Rattle.meta_config.specs.declared.meta.Meta.{Meta};
ghost use Rattle.meta_config.specs.Making.{meta_of};
ghost use Rattle.meta_config.specs.Parts.{IsMeta};
ghost use Rattle.meta_config.specs.Refusals.{Answers, Means, Refuses, refusal_of, refusal_of_text, too_long};

use crate::checks::{
    check_depends, check_meta, check_names_count, check_one_manager, check_one_meta,
    check_one_server, check_partial_names, check_partials_count, check_urls, check_values,
};
use crate::limits::MAX_META_TEXT;
use crate::making::meta_of;
use crate::tables::Class;
use crate::writing::write_meta;
use crate::{Limit, Meta, MetaError};
use mof_codec::{MofError, read};
use mof_values::{Instance, Memory};
use std::alloc::Global;

/// The meta-configuration that the bytes declare.
///
/// # Errors
///
/// The first fault, at the least index; see [`MetaError`].
pub fn read_meta(alloc: Global, bytes: &[u8]) -> Result<Meta, MetaError>
    ensures ok { IfOk result (λ meta. Means bytes.now meta) }
    ensures is_meta { IfOk result IsMeta }
    ensures refused { IfErr result (λ e. Refuses bytes.now e) }
    ensures only { IfErr result (λ e. e ≢ MetaError.Memory
        → (meta : Meta) → Means bytes.now meta → ⊥) }
{
    let instances = match read(alloc, bytes) {
        Ok(instances) => instances,
        Err(fault) => return Err(refusal_of_text(fault)),
    };
    meta_from(alloc, &instances)
}

// The refusal of bytes that spell no instances.
#[tactic(auto, using(crate::proofs::OneMeaning::not_memory))]
fn refusal_of_text(fault: MofError) -> MetaError
    ensures { result ≡ refusal_of_text fault }
{
    match fault {
        MofError::Memory => MetaError::Memory,
        _ => MetaError::Mof(fault),
    }
}

// The meta-configuration that the instances declare.
fn meta_from(alloc: Global, instances: &[Instance]) -> Result<Meta, MetaError>
    requires { length instances.now < 2 ^ 32 }
    ensures answered { Answers (refusal_of instances.now) result }
    ensures made { IfOk result (λ meta. meta ≡ meta_of instances.now) }
{
    check_meta(instances)?;
    check_one_meta(instances)?;
    check_one_manager(Class::Download, instances)?;
    check_one_manager(Class::Report, instances)?;
    check_urls(alloc, instances)?;
    check_one_server(alloc, instances)?;
    check_values(alloc, instances)?;
    check_partials_count(instances)?;
    check_names_count(alloc, instances)?;
    let meta = meta_of(alloc, instances)?;
    check_length(alloc, &meta)?;
    check_partial_names(instances)?;
    check_depends(alloc, instances)?;
    Ok(meta)
}

#[tactic(auto, unfolding(crate::specs::Refusals::too_long))]
fn check_length(alloc: Global, meta: &Meta) -> Result<(), MetaError>
    ensures { Answers (too_long meta.now) result }
{
    match write_meta(alloc, meta) {
        Ok(text) if text.len() <= MAX_META_TEXT => Ok(()),
        Ok(_) => Err(MetaError::TooMany { name: Limit::Text }),
        Err(Memory) => Err(MetaError::Memory),
    }
}
