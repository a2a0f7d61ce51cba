//! The printed names of why a script gives a node no document.
ghost use Rattle.std.specs.Prelude.{◌≡◌, ◌++◌, OnOk, string_bytes};
ghost use Rattle.lcm_program.specs.InputWords.{compile_words};

use crate::merge_words::push_merge_error;
use config_script::CompileError;
use std::alloc::AllocError;

/// Appends the name of a script's refusal, and its values; of what is merged to no document, that refusal's.
pub fn push_compile_error(out: &mut String, error: &CompileError) -> Result<(), AllocError>
    ensures { OnOk result (string_bytes out.new ≡ string_bytes out.old ++ compile_words error.now) }
{
    match error {
        CompileError::TooLong => out.push_str("TooLong"),
        CompileError::NotText { at } => write!(out, "NotText {at}"),
        CompileError::Shape { line } => write!(out, "Shape {line}"),
        CompileError::UnknownKind { line } => write!(out, "UnknownKind {line}"),
        CompileError::Reserved { line } => write!(out, "Reserved {line}"),
        CompileError::NoNode => out.push_str("NoNode"),
        CompileError::Merge(error) => push_merge_error(out, error),
        CompileError::Memory => out.push_str("Memory"),
    }
}
