//! Changes from bodies.
//!
//! The first byte says of which kind a body is; all after it is of that change.
ghost use Rattle.std.specs.Prelude.{◌≡◌, ◌∷◌, IfOk, IfErr};
ghost use Rattle.store_fields.specs.Reading.{Reads};
ghost use Rattle.pull_messages.specs.declared.registration.Registration.{Registration as RegistrationTerm};
ghost use Rattle.pull_store.specs.declared.change.Change.{Change as ChangeTerm};
ghost use Rattle.pull_store.specs.Bodies.{bytes_of_ids, bytes_of_registration};
ghost use Rattle.pull_store.specs.Sound.{AreIds, AreFields, IsRegistration};
ghost use Rattle.pull_store.specs.Stands.{IsBody};

use crate::change::Change;
use crate::limits::{LENGTHS, MAX_BYTES, TEXT_LIMIT};
use crate::names::NameForm;
use mof_values::{Bytes, Text};
use pull_messages::{MAX_LIST_ITEMS, Registration};
use std::alloc::{AllocError, Global};
use store_fields::{FieldError, Fields, read_list};

/// The change of which the bytes are the body.
///
/// # Errors
///
/// `Wrong` where they are the body of none.
pub fn read_change(alloc: Global, body: &[u8]) -> Result<Change, FieldError>
    ensures found { IfOk result (IsBody body.now) }
    ensures wrong { IfErr result (λ e. e ≡ FieldError.Wrong → (change : ChangeTerm) → IsBody body.now change → ⊥) }
{
    match body {
        [kind, rest @ ..] => read_kind(alloc, *kind, rest),
        [] => Err(FieldError::Wrong),
    }
}

fn read_kind(alloc: Global, kind: u8, rest: &[u8]) -> Result<Change, FieldError>
    ensures found { IfOk result (IsBody (kind ∷ rest.now)) }
    ensures wrong { IfErr result (λ e. e ≡ FieldError.Wrong → (change : ChangeTerm) → IsBody (kind ∷ rest.now) change → ⊥) }
{
    match kind {
        1 => read_register(alloc, rest),
        2 => read_report(alloc, rest),
        _ => Err(FieldError::Wrong),
    }
}

fn read_register(alloc: Global, rest: &[u8]) -> Result<Change, FieldError>
    ensures found { IfOk result (IsBody (1 ∷ rest.now)) }
    ensures wrong { IfErr result (λ e. e ≡ FieldError.Wrong → (change : ChangeTerm) → IsBody (1 ∷ rest.now) change → ⊥) }
{
    let mut fields = Fields::of(rest);
    let agent = fields.u128()?;
    let registration = read_registration(alloc, fields.rest())?;
    Ok(Change::Register {
        agent,
        registration,
    })
}

fn read_report(alloc: Global, rest: &[u8]) -> Result<Change, FieldError>
    ensures found { IfOk result (IsBody (2 ∷ rest.now)) }
    ensures wrong { IfErr result (λ e. e ≡ FieldError.Wrong → (change : ChangeTerm) → IsBody (2 ∷ rest.now) change → ⊥) }
{
    let mut fields = Fields::of(rest);
    let (agent, job) = read_ids(&mut fields)?;
    let body = fields.rest();
    if body.len() > MAX_BYTES {
        return Err(FieldError::Wrong);
    }
    match body.to_vec(alloc) {
        Ok(body) => Ok(Change::Report {
            agent,
            job,
            body: Bytes::of(body),
        }),
        Err(AllocError) => Err(FieldError::Memory),
    }
}

// An agent and a job.
fn read_ids(fields: &mut Fields<'_>) -> Result<(u128, u128), FieldError>
    ensures { Reads bytes_of_ids AreIds fields.old fields.new result }
{
    let agent = fields.u128()?;
    let job = fields.u128()?;
    Ok((agent, job))
}

// The registration of which these are all the bytes, where it may be kept.
fn read_registration(alloc: Global, bytes: &[u8]) -> Result<Registration, FieldError>
    ensures found { IfOk result (λ x. IsRegistration x × (bytes.now ≡ bytes_of_registration x)) }
    ensures wrong { IfErr result (λ e. e ≡ FieldError.Wrong → (x : RegistrationTerm) → IsRegistration x → bytes.now ≡ bytes_of_registration x → ⊥) }
{
    let mut fields = Fields::of(bytes);
    let registration = read_fields(alloc, &mut fields)?;
    let names = registration.names.as_slice().len();
    if fields.is_empty()
        && names <= MAX_LIST_ITEMS
        && bytes.len() <= MAX_BYTES + LENGTHS + 2 * names
    {
        Ok(registration)
    } else {
        Err(FieldError::Wrong)
    }
}

fn read_fields(alloc: Global, fields: &mut Fields<'_>) -> Result<Registration, FieldError>
    ensures { Reads bytes_of_registration AreFields fields.old fields.new result }
{
    let lcm_version = fields.text(alloc, TEXT_LIMIT)?;
    let node_name = fields.text(alloc, TEXT_LIMIT)?;
    let ip_address = fields.text(alloc, TEXT_LIMIT)?;
    let names = read_list::<NameForm, Text>(alloc, fields)?;
    Ok(Registration {
        lcm_version,
        node_name,
        ip_address,
        names,
    })
}
