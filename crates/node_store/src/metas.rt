//! Meta-configurations.
ghost use Rattle.std.specs.Prelude.{◌≡◌, ◌↔◌, IfOk, IfErr, IsTrue};
ghost use Rattle.meta_config.specs.Refusals.{Means};
ghost use Rattle.node_store.specs.Bodies.{SpellsMeta};

use depend_order::OrderError;
use meta_config::{Meta, MetaError, metas_read_back, parts_order, read_meta, write_meta};
use mof_values::Memory;
use std::alloc::Global;
use store_fields::FieldError;

/// The meta-configuration of which the bytes are the canonical text, and whose partial configurations have an order.
pub fn read_node_meta(alloc: Global, text: &[u8]) -> Result<Meta, FieldError>
    ensures found { IfOk result (λ meta. SpellsMeta text.now meta) }
    ensures wrong { IfErr result (λ e. e ≡ FieldError.Wrong → (meta : Meta)
        → SpellsMeta text.now meta → ⊥) }
{
    metas_read_back();
    let meta = match declared(alloc, text) {
        Ok(meta) => meta,
        Err(error) => return Err(error),
    };
    let canonical = match write_meta(alloc, &meta) {
        Ok(canonical) => canonical,
        Err(Memory) => return Err(FieldError::Memory),
    };
    if canonical.as_slice() == text {
        match parts_order(alloc, &meta) {
            Ok(_) => Ok(meta),
            Err(OrderError::Cycle(_)) => Err(FieldError::Wrong),
            Err(OrderError::Memory) => Err(FieldError::Memory),
        }
    } else {
        Err(FieldError::Wrong)
    }
}

// The meta-configuration that the bytes declare.
fn declared(alloc: Global, text: &[u8]) -> Result<Meta, FieldError>
    ensures found { IfOk result (λ meta. Means text.now meta) }
    ensures wrong { IfErr result (λ e. e ≡ FieldError.Wrong → (meta : Meta) → Means text.now meta → ⊥) }
{
    match read_meta(alloc, text) {
        Ok(meta) => Ok(meta),
        Err(error) => {
            if is_memory(&error) {
                Err(FieldError::Memory)
            } else {
                Err(FieldError::Wrong)
            }
        }
    }
}

fn is_memory(error: &MetaError) -> bool
    ensures { IsTrue result ↔ (error.now ≡ MetaError.Memory) }
{
    matches!(error, MetaError::Memory)
}
