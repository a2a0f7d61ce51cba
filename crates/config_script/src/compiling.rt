//! The document that a script gives a node.
ghost use Rattle.std.specs.Prelude.{◌≤◌, [], ◌∷◌, IfErr, IfOk, length};
ghost use Rattle.std.specs.Str.{chars};
ghost use Rattle.dsc_document.specs.declared.document.Document.{Document};
ghost use Rattle.partial_merge.specs.Merged.{Merged};
ghost use Rattle.partial_merge.specs.Parts.{unnamed_part};
ghost use Rattle.config_script.specs.Checking.{MergesAs};
ghost use Rattle.config_script.specs.Refused.{Compiles, Refuses};
ghost use Rattle.config_script.specs.declared.limits.TheConstants as limits;

use crate::MAX_SCRIPT;
use crate::error::CompileError;
use crate::lines::line_of;
use crate::read::read;
use crate::shape::torn_rest;
use mof_codec::MofError;
use mof_syntax::MAX_DOCUMENT;
use mof_values::Text;
use partial_merge::{MergeError, PartFault, merge_text};
use std::alloc::Global;

/// The canonical text of the document that the script in these bytes gives the node: the resources of the blocks that
/// name it, by fold, in the order of the text, and the header.
///
/// # Errors
///
/// The first reason that applies, in the order of [`CompileError`].
pub fn compile(alloc: Global, bytes: &[u8], node: &Text) -> Result<Vec<u8>, CompileError>
    ensures compiled { IfOk result (λ text. Compiles bytes.now node.now text.items) }
    ensures refused { IfErr result (Refuses bytes.now node.now) }
{
    if bytes.len() > MAX_SCRIPT {
        return Err(CompileError::TooLong);
    }
    match str::from_utf8(bytes) {
        Ok(text) => compile_text(alloc, text, node),
        Err(e) => Err(CompileError::NotText {
            at: e.valid_up_to(),
        }),
    }
}

fn compile_text(alloc: Global, text: &str, node: &Text) -> Result<Vec<u8>, CompileError>
    requires { length text.now ≤ limits.MAX_SCRIPT }
    ensures compiled { IfOk result (λ compiled. Compiles text.now node.now compiled.items) }
    ensures refused { IfErr result (Refuses text.now node.now) }
{
    let Some(reading) = read(alloc, text, node.as_slice())? else {
        return Err(CompileError::Shape {
            line: line_of(text, torn_rest(text)),
        });
    };
    if let Some(from) = reading.findings.unknown {
        return Err(CompileError::UnknownKind {
            line: line_of(text, from),
        });
    }
    if let Some(from) = reading.findings.reserved {
        return Err(CompileError::Reserved {
            line: line_of(text, from),
        });
    }
    if !reading.findings.names_node {
        return Err(CompileError::NoNode);
    }
    let document = reading.writer.finish()?.into_bytes();
    if document.len() > MAX_DOCUMENT {
        return Err(CompileError::Merge(MergeError::Part {
            index: 0,
            fault: PartFault::Mof(MofError::TooLong),
        }));
    }
    merged(alloc, &document)?;
    Ok(document)
}

// Checks that the text merges as one part.
fn merged(alloc: Global, document: &[u8]) -> Result<(), CompileError>
    ensures merged { IfOk result (λ _. (merged : Document) × Merged (unnamed_part document.now ∷ []) merged) }
    ensures refused { IfErr result (MergesAs document.now) }
{
    match merge_text(alloc, &Text::of(Vec::new(alloc)), document) {
        Ok(_) => Ok(()),
        Err(MergeError::Memory) => Err(CompileError::Memory),
        Err(error) => Err(CompileError::Merge(error)),
    }
}
