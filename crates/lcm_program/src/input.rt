//! What the input is: bytes, instances, and the document that they declare.
ghost use Rattle.std.specs.Prelude.{◌≡◌, ◌≢◌, ◌<◌, ◌^◌, ◌⊎◌, IfErr, IfOk, Ok};
ghost use Rattle.depend_order.specs.Ordered.{IsOrdered};
ghost use Rattle.node_state.specs.Metas.{IsNodeMeta};
ghost use Rattle.lcm_program.specs.declared.input.Unread.TheVariants.{Memory};
ghost use Rattle.lcm_program.specs.Endings.{unread_status};
ghost use Rattle.lcm_program.specs.Input.{IsInput, IsUnread, ReadsBytes, ReadsDocument, ReadsInstances, ReadsMeta, input_limit};

use crate::streams::{ReadError, read_all};
use depend_order::OrderError;
use dsc_document::Document;
use dsc_node::{InputError, Status};
use dsc_outside::Source;
use meta_config::{MAX_META_TEXT, Meta, MetaError, parts_order};
use mof_codec::{MofError, read};
use mof_syntax::MAX_DOCUMENT;
use mof_values::{Instance, Text};
use partial_merge::{MergeError, OrderedDocument, merge_text};
use std::alloc::{AllocError, AllocFailed, Global};
use std::mem::forget;

/// Why an input was not read.
#[derive(Debug, Drop, PartialEq)]
pub enum Unread {
    /// It is refused for this error.
    Refused(InputError),

    /// A read failed.
    ReadFault,

    /// Memory ran out.
    Memory,
}

impl Unread {
    /// The status of a command whose input was not read.
    pub fn status(self) -> Status
        ensures { result ≡ unread_status self }
    {
        match self {
            Unread::Refused(error) => Status::InputRefused(error),
            Unread::ReadFault => Status::ReadFault,
            Unread::Memory => Status::Memory,
        }
    }
}

impl From<AllocError> for Unread {
    ghost from_gives = { λ _ e. e ≡ Memory };

    fn from(_: AllocError) -> Self {
        Unread::Memory
    }
}

impl<T: Drop> From<AllocFailed<T>> for Unread {
    ghost from_gives = { λ _ e. e ≡ Memory };

    fn from(_: AllocFailed<T>) -> Self {
        Unread::Memory
    }
}

/// Reads the input to its end, and the document that it declares, as one part without a name, with its order.
pub fn read_ordered<S: Source>(alloc: Global, input: &mut S) -> Result<OrderedDocument, Unread>
    ensures ok { IfOk result (λ ordered. IsInput ReadsDocument (S.left input.old)
        (Ok ordered.document)) }
    ensures ordered { IfOk result IsOrdered }
    ensures err { IfErr result (λ e. IsUnread ReadsDocument e (S.left input.old)
        (S.faults input.old) (S.faults input.new)) }
{
    let bytes = match read_bytes(alloc, input) {
        Ok(bytes) => bytes,
        Err(unread) => return Err(unread),
    };
    let name = Text::of(Vec::new(alloc));
    match merge_text(alloc, &name, &bytes) {
        Ok(ordered) => Ok(ordered),
        Err(error) => Err(unmerged(error)),
    }
}

/// Leaves the memory of a document to the system, at the end of a command: the process ends after it, and to free each text of a
/// document takes a sixth of the time.
pub fn leave<T: Drop>(document: T) {
    forget(document);
}

/// Reads the input to its end, and the document that it declares.
pub fn read_document<S: Source>(alloc: Global, input: &mut S) -> Result<Document, Unread>
    ensures ok { IfOk result (λ document. IsInput ReadsDocument (S.left input.old) (Ok document)) }
    ensures err { IfErr result (λ e. IsUnread ReadsDocument e (S.left input.old)
        (S.faults input.old) (S.faults input.new)) }
{
    match read_ordered(alloc, input) {
        Ok(ordered) => Ok(ordered.document),
        Err(unread) => Err(unread),
    }
}

// What a refusal of the merge is here.
fn unmerged(error: MergeError) -> Unread
    ensures { ((error ≡ MergeError.Memory) × (result ≡ Unread.Memory))
        ⊎ ((error ≢ MergeError.Memory) × (result ≡ Unread.Refused
        (InputError.Merge error))) }
{
    match error {
        MergeError::Memory => Unread::Memory,
        _ => Unread::Refused(InputError::Merge(error)),
    }
}

/// Reads the input to its end, and the instances that it spells.
pub fn read_instances<S: Source>(alloc: Global, input: &mut S) -> Result<Vec<Instance>, Unread>
    ensures ok { IfOk result (λ instances. IsInput ReadsInstances (S.left input.old)
        (Ok instances.items)) }
    ensures err { IfErr result (λ e. IsUnread ReadsInstances e (S.left input.old)
        (S.faults input.old) (S.faults input.new)) }
{
    let bytes = match read_bytes(alloc, input) {
        Ok(bytes) => bytes,
        Err(unread) => return Err(unread),
    };
    match read(alloc, &bytes) {
        Ok(instances) => Ok(instances),
        Err(error) => Err(unspelled(error)),
    }
}

/// Reads the input to its end, and the meta-configuration that it declares, whose partial configurations have an order.
pub fn read_meta<S: Source>(alloc: Global, input: &mut S) -> Result<Meta, Unread>
    ensures ok { IfOk result (λ meta. IsInput ReadsMeta (S.left input.old) (Ok meta)) }
    ensures taken { IfOk result IsNodeMeta }
    ensures err { IfErr result (λ e. IsUnread ReadsMeta e (S.left input.old) (S.faults input.old)
        (S.faults input.new)) }
{
    let bytes = match read_within(alloc, input, MAX_META_TEXT) {
        Ok(bytes) => bytes,
        Err(unread) => return Err(unread),
    };
    let meta = match meta_config::read_meta(alloc, &bytes) {
        Ok(meta) => meta,
        Err(error) => return Err(undeclared(error)),
    };
    match parts_order(alloc, &meta) {
        Ok(_) => Ok(meta),
        Err(OrderError::Cycle(walk)) => Err(Unread::Refused(InputError::Parts(walk))),
        Err(OrderError::Memory) => Err(Unread::Memory),
    }
}

/// Reads the input to its end, as the bytes of a document.
pub fn read_bytes<S: Source>(alloc: Global, input: &mut S) -> Result<Vec<u8>, Unread>
    ensures ok { IfOk result (λ bytes. IsInput (ReadsBytes input_limit) (S.left input.old)
        (Ok bytes.items)) }
    ensures err { IfErr result (λ e. IsUnread (ReadsBytes input_limit) e (S.left input.old)
        (S.faults input.old) (S.faults input.new)) }
{
    read_within(alloc, input, MAX_DOCUMENT)
}

/// Reads the input to its end, if it has at most this number of bytes.
pub fn read_within<S: Source>(alloc: Global, input: &mut S, limit: usize) -> Result<Vec<u8>, Unread>
    requires { limit < 2 ^ 62 }
    ensures ok { IfOk result (λ bytes. IsInput (ReadsBytes limit) (S.left input.old)
        (Ok bytes.items)) }
    ensures err { IfErr result (λ e. IsUnread (ReadsBytes limit) e (S.left input.old)
        (S.faults input.old) (S.faults input.new)) }
{
    match read_all(alloc, input, limit) {
        Ok(bytes) => Ok(bytes),
        Err(ReadError::Failed) => Err(Unread::ReadFault),
        Err(ReadError::TooLong) => Err(Unread::Refused(InputError::TooLong)),
        Err(ReadError::Memory) => Err(Unread::Memory),
    }
}

// What a refusal of a meta-configuration is here.
fn undeclared(error: MetaError) -> Unread
    ensures { ((error ≡ MetaError.Memory) × (result ≡ Unread.Memory))
        ⊎ ((error ≢ MetaError.Memory) × (result ≡ Unread.Refused
        (InputError.Meta error))) }
{
    match error {
        MetaError::Memory => Unread::Memory,
        _ => Unread::Refused(InputError::Meta(error)),
    }
}

// What a refusal of the text is here.
fn unspelled(error: MofError) -> Unread
    ensures { ((error ≡ MofError.Memory) × (result ≡ Unread.Memory))
        ⊎ ((error ≢ MofError.Memory) × (result ≡ Unread.Refused
        (InputError.Mof error))) }
{
    match error {
        MofError::Memory => Unread::Memory,
        _ => Unread::Refused(InputError::Mof(error)),
    }
}
