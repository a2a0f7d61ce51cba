//! The printed names of why a text spells no instances.
ghost use Rattle.std.specs.Prelude.{◌≡◌, ◌++◌, codes, OnOk, string_bytes};
ghost use Rattle.std.specs.Fmt.{decimal};
ghost use Rattle.mof_syntax.specs.Forms.{form_name};
ghost use Rattle.lcm_program.specs.InputWords.{mof_words};

use mof_codec::{Form, MofError};
use std::alloc::AllocError;

/// Appends the name of a text's refusal, and its values.
pub fn push_mof_error(out: &mut String, error: MofError) -> Result<(), AllocError>
    ensures { OnOk result (string_bytes out.new ≡ string_bytes out.old ++ mof_words error) }
{
    match error {
        MofError::TooLong => out.push_str("TooLong"),
        MofError::Text { at } => write!(out, "Text {at}"),
        MofError::Syntax { at } => write!(out, "Syntax {at}"),
        MofError::OutOfProfile { at, what } => push_out_of_profile(out, at, what),
        MofError::NumberRange { at } => write!(out, "NumberRange {at}"),
        MofError::TooMany { at } => write!(out, "TooMany {at}"),
        MofError::Memory => out.push_str("Memory"),
    }
}

fn push_out_of_profile(out: &mut String, at: usize, what: Form) -> Result<(), AllocError>
    ensures { OnOk result (string_bytes out.new ≡ string_bytes out.old ++ codes "OutOfProfile "
        ++ decimal at ++ codes " " ++ form_name what) }
{
    let name = what.name();
    write!(out, "OutOfProfile {at} {name}")
}
