//! Bodies, as they are written.
ghost use Rattle.std.specs.Prelude.{◌≡◌, ◌≤◌, ◌++◌, length, OnOk, vec_capacity, encode_utf8_all};
ghost use Rattle.std.specs.Int.{w128};
ghost use Rattle.store_fields.specs.Fields.{IsText, bytes_of_number, bytes_of_text};
ghost use Rattle.store_fields.specs.Writing.{Writes};
ghost use Rattle.pull_messages.specs.declared.limits.TheConstants.{MAX_TEXT_BYTES};
ghost use Rattle.pull_messages.specs.Sizes.{IsSized};
ghost use Rattle.pull_store.specs.Bodies.{body_of, bytes_of_head, bytes_of_texts, bytes_of_registration};
ghost use Rattle.pull_store.specs.Sound.{IsId, IsInSize, IsKeepable, IsKeepableChange, IsRegistration, most_bytes};
ghost use Rattle.pull_store.specs.declared.limits.TheConstants.{BODY_CAPACITY};

use crate::change::Change;
use crate::names::NameForm;
use mof_values::{Memory, Text};
use pull_messages::Registration;
use store_fields::{put_byte, put_list, put_text, put_u128};

/// Writes the body of a change in place of all that was in a buffer, which has capacity for it.
pub fn spell(buffer: &mut Vec<u8>, change: &Change)
    requires capacity { BODY_CAPACITY ≤ vec_capacity buffer.old }
    requires size { IsKeepableChange change.now }
    ensures body { buffer.new.items ≡ body_of change.now }
    ensures in_size { IsInSize change.now }
    ensures short { length buffer.new.items ≤ BODY_CAPACITY }
    ensures capacity { vec_capacity buffer.old ≤ vec_capacity buffer.new }
{
    match change {
        Change::Register {
            agent,
            registration,
        } => spell_registration(buffer, *agent, registration),
        Change::Report { agent, job, body } => {
            spell_report(buffer, *agent, *job, body.as_slice());
        }
    }
}

/// Writes the body of a registration in place of all that was in the buffer.
pub fn spell_registration(buffer: &mut Vec<u8>, agent: u128, registration: &Registration)
    requires capacity { BODY_CAPACITY ≤ vec_capacity buffer.old }
    requires size { IsKeepable registration.now }
    ensures body { buffer.new.items ≡ body_of (Change.Register agent registration.now) }
    ensures in_size { IsId agent × IsRegistration registration.now }
    ensures short { length buffer.new.items ≤ BODY_CAPACITY }
    ensures capacity { vec_capacity buffer.old ≤ vec_capacity buffer.new }
{
    buffer.clear();
    match put_register(buffer, agent, registration) {
        Ok(()) => {}
        Err(Memory) => unreachable!(),
    }
}

/// Writes the body of a report in place of all that was in the buffer.
pub fn spell_report(buffer: &mut Vec<u8>, agent: u128, job: u128, body: &[u8])
    requires capacity { BODY_CAPACITY ≤ vec_capacity buffer.old }
    requires size { length body.now ≤ most_bytes }
    ensures body { buffer.new.items ≡ body_of (Change.Report agent job body.now) }
    ensures in_size { IsId agent × IsId job }
    ensures short { length buffer.new.items ≤ BODY_CAPACITY }
    ensures capacity { vec_capacity buffer.old ≤ vec_capacity buffer.new }
{
    buffer.clear();
    match put_report(buffer, agent, job, body) {
        Ok(()) => {}
        Err(Memory) => unreachable!(),
    }
}

fn put_register(into: &mut Vec<u8>, agent: u128, registration: &Registration) -> Result<(), Memory>
    requires { IsKeepable registration.now }
    ensures writes { Writes (body_of (Change.Register agent registration.now)) into.old into.new result }
    ensures in_range { OnOk result (IsRegistration registration.now) }
{
    put_head(into, 1, agent)?;
    put_registration(into, registration)
}

fn put_report(into: &mut Vec<u8>, agent: u128, job: u128, body: &[u8]) -> Result<(), Memory>
    ensures { Writes (body_of (Change.Report agent job body.now)) into.old into.new result }
{
    put_head(into, 2, agent)?;
    put_job(into, job, body)
}

fn put_head(into: &mut Vec<u8>, kind: u8, agent: u128) -> Result<(), Memory>
    ensures { Writes (bytes_of_head kind agent) into.old into.new result }
{
    put_byte(into, kind)?;
    put_u128(into, agent)
}

fn put_job(into: &mut Vec<u8>, job: u128, body: &[u8]) -> Result<(), Memory>
    ensures { Writes (bytes_of_number w128 job ++ body.now) into.old into.new result }
{
    put_u128(into, job)?;
    put_bytes(into, body)
}

fn put_bytes(into: &mut Vec<u8>, bytes: &[u8]) -> Result<(), Memory>
    ensures { Writes bytes.now into.old into.new result }
{
    Ok(into.extend_from_slice(bytes)?)
}

fn put_registration(into: &mut Vec<u8>, x: &Registration) -> Result<(), Memory>
    requires { IsKeepable x.now }
    ensures writes { Writes (bytes_of_registration x.now) into.old into.new result }
    ensures in_range { OnOk result (IsRegistration x.now) }
{
    put_texts(into, x)?;
    put_list::<NameForm, Text>(into, x.names.as_slice())
}

fn put_texts(into: &mut Vec<u8>, x: &Registration) -> Result<(), Memory>
    requires { IsSized x.now }
    ensures writes { Writes (bytes_of_texts x.now) into.old into.new result }
    ensures version { OnOk result (IsText MAX_TEXT_BYTES x.now.lcm_version) }
    ensures node { OnOk result (IsText MAX_TEXT_BYTES x.now.node_name) }
    ensures address { OnOk result (IsText MAX_TEXT_BYTES x.now.ip_address) }
{
    put_text(into, &x.lcm_version)?;
    put_two(into, &x.node_name, &x.ip_address)
}

fn put_two(into: &mut Vec<u8>, first: &Text, second: &Text) -> Result<(), Memory>
    requires first { length (encode_utf8_all first.now) ≤ MAX_TEXT_BYTES }
    requires second { length (encode_utf8_all second.now) ≤ MAX_TEXT_BYTES }
    ensures writes { Writes (bytes_of_text first.now ++ bytes_of_text second.now) into.old into.new result }
    ensures first { OnOk result (IsText MAX_TEXT_BYTES first.now) }
    ensures second { OnOk result (IsText MAX_TEXT_BYTES second.now) }
{
    put_text(into, first)?;
    put_text(into, second)
}
