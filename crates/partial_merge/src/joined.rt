//! The documents of parts as one.
ghost use Rattle.std.specs.Prelude.{◌≡◌, ◌<◌, ◌≤◌, ◌^◌, [], ◌∷◌, ◌++◌, IfErr, IfOk, OnOk, length, map, vec_len};
ghost use Rattle.mof_syntax.specs.Limits.{instances_limit};
ghost use Rattle.mof_syntax.specs.Refusals.{Reads};
ghost use Rattle.partial_merge.specs.Parts.{AreJoined, Declares, NamesDiffer, in_part, joined, named, text_part, with_part};
ghost use Rattle.partial_merge.specs.Refused.{IsFaultAt, IsFirstFault, IsPartFault};

use crate::{MergeError, Part, PartFault};
use dsc_document::{DocError, Document, Resource, check_part};
use mof_codec::{MofError, read};
use mof_values::{Instance, Items, Text};
use std::alloc::{AllocError, Global};

/// The document that parts declare together, whatever their resources are and depend on.
pub fn joined(alloc: Global, parts: &[Part]) -> Result<Document, MergeError>
    requires some { 0 < length parts.now }
    requires countable { length parts.now < 2 ^ 32 }
    requires names { NamesDiffer parts.now }
    ensures joined { IfOk result (AreJoined parts.now) }
    ensures refused { IfErr result (IsPartFault (IsFirstFault parts.now)) }
{
    let first = &parts[0];
    let mut whole = document_of(alloc, &first.name, first.bytes.as_slice())?;
    for place in 1..parts.len() {
        let part = &parts[place];
        let document = declared(alloc, place as u32, part.bytes.as_slice())?;
        whole = with_part(whole, place as u32, &part.name, document)?;
    }
    Ok(whole)
}

/// The document that the text of the one part of this name declares.
pub fn document_of(alloc: Global, name: &Text, bytes: &[u8]) -> Result<Document, MergeError>
    ensures joined { IfOk result (AreJoined (text_part name.now bytes.now ∷ [])) }
    ensures refused { IfErr result (IsFaultAt 0 bytes.now) }
{
    let document = declared(alloc, 0, bytes)?;
    Ok(named(alloc, document, name)?)
}

// The document with the name of its one part.
fn named(alloc: Global, document: Document, name: &Text) -> Result<Document, AllocError>
    ensures { IfOk result (λ with_name. with_name ≡ named document (name.now ∷ [])) }
{
    let mut document = document;
    document.parts = Items::of(vec![in alloc; name.copy()?]?);
    Ok(document)
}

// The document with what one more part declares.
fn with_part(
    whole: Document,
    place: u32,
    name: &Text,
    part: Document,
) -> Result<Document, AllocError>
    ensures { IfOk result (λ more. more ≡ with_part whole place name.now part) }
{
    let mut resources = whole.resources.into_vec();
    push_resources(&mut resources, place, part.resources.into_vec())?;
    let mut others = whole.others.into_vec();
    others.append(&mut part.others.into_vec())?;
    let mut parts = whole.parts.into_vec();
    parts.push(name.copy()?)?;
    Ok(Document {
        version: whole.version,
        resources: Items::of(resources),
        others: Items::of(others),
        parts: Items::of(parts),
    })
}

// Adds the resources, each as one of the part at this place.
fn push_resources(
    out: &mut Vec<Resource>,
    place: u32,
    resources: Vec<Resource>,
) -> Result<(), AllocError>
    ensures { OnOk result (out.new.items ≡ out.old.items ++ map (in_part place) resources.items) }
{
    for mut resource in resources {
        resource.part = place;
        out.push(resource)?;
    }
    Ok(())
}

/// The document that the text of the part at this place declares.
pub fn declared(alloc: Global, place: u32, bytes: &[u8]) -> Result<Document, MergeError>
    ensures whole { IfOk result (Declares bytes.now) }
    ensures refused { IfErr result (IsFaultAt place bytes.now) }
{
    let instances = instances_of(alloc, place, bytes)?;
    match check_part(alloc, instances) {
        Ok(document) => Ok(document),
        Err(DocError::Memory) => Err(MergeError::Memory),
        Err(refusal) => Err(MergeError::Part {
            index: place,
            fault: PartFault::Doc(refusal),
        }),
    }
}

// The instances that the text of the part at this place spells.
fn instances_of(alloc: Global, place: u32, bytes: &[u8]) -> Result<Vec<Instance>, MergeError>
    ensures spelled { IfOk result (λ instances. Reads bytes.now instances.items) }
    ensures few { IfOk result (λ instances. vec_len instances ≤ instances_limit) }
    ensures refused { IfErr result (IsFaultAt place bytes.now) }
{
    match read(alloc, bytes) {
        Ok(instances) => Ok(instances),
        Err(MofError::Memory) => Err(MergeError::Memory),
        Err(refusal) => Err(MergeError::Part {
            index: place,
            fault: PartFault::Mof(refusal),
        }),
    }
}
