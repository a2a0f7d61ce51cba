//! The printed names of why an input declares no document, or one that does not fit.
ghost use Rattle.std.specs.Prelude.{◌≡◌, ◌++◌, codes, encode_utf8_all, OnOk, string_bytes};
ghost use Rattle.std.specs.List.{flat_map};
ghost use Rattle.std.specs.Fmt.{decimal};
ghost use Rattle.dsc_node.specs.Quoted.{quoted};
ghost use Rattle.lcm_program.specs.InputWords.{fit_words, merge_words, part_words, pair_words, place_words, repeated_words, rule_words, same_id_words, spot_words};

use crate::mof_words::push_mof_error;
use dsc_document::{DocError, Spot};
use mof_codec::push_literal;
use mof_values::{Ident, Text};
use node_state::FitError;
use partial_merge::{MergeError, PartFault};
use std::alloc::AllocError;

/// Appends the name of a merge's refusal, and its values.
pub fn push_merge_error(out: &mut String, error: &MergeError) -> Result<(), AllocError>
    ensures { OnOk result (string_bytes out.new ≡ string_bytes out.old ++ merge_words error.now) }
{
    match error {
        MergeError::TwoNames { first, second } => push_pair(out, "TwoNames", *first, *second),
        MergeError::Part { index, fault } => {
            write!(out, "Part {index} ")?;
            push_part_fault(out, fault)
        }
        MergeError::TooMany { count } => write!(out, "TooMany {count}"),
        MergeError::DuplicateId { first, second } => push_same_ids(out, *first, *second),
        MergeError::DependsUnknown { spot, name } => {
            out.push_str("DependsUnknown ")?;
            push_spot(out, *spot)?;
            push_text(out, name)
        }
        MergeError::Cycle(walk) => {
            out.push_str("Cycle")?;
            push_places(out, walk.as_slice())
        }
        MergeError::Memory => out.push_str("Memory"),
    }
}

/// Appends why a document does not fit a meta-configuration.
pub fn push_fit_error(out: &mut String, error: FitError) -> Result<(), AllocError>
    ensures { OnOk result (string_bytes out.new ≡ string_bytes out.old ++ fit_words error) }
{
    match error {
        FitError::PartCount { found } => write!(out, "PartCount {found}"),
        FitError::MissingPart { partial } => write!(out, "MissingPart {partial}"),
        FitError::StrangePart { part } => write!(out, "StrangePart {part}"),
        FitError::ExclusiveTaken { part, resource } => {
            write!(out, "ExclusiveTaken {part} {resource}")
        }
    }
}

fn push_part_fault(out: &mut String, fault: &PartFault) -> Result<(), AllocError>
    ensures { OnOk result (string_bytes out.new ≡ string_bytes out.old ++ part_words fault.now) }
{
    match fault {
        PartFault::Mof(error) => push_mof_error(out, *error),
        PartFault::Doc(error) => push_rule(out, error),
    }
}

fn push_rule(out: &mut String, error: &DocError) -> Result<(), AllocError>
    ensures { OnOk result (string_bytes out.new ≡ string_bytes out.old ++ rule_words error.now) }
{
    match error {
        DocError::DuplicateProperty { index, name } => push_repeated(out, *index, name),
        DocError::TwoAliases { first, second } => push_pair(out, "TwoAliases", *first, *second),
        DocError::AliasUnknown { index } => write!(out, "AliasUnknown {index}"),
        DocError::NoHeader => out.push_str("NoHeader"),
        DocError::TwoHeaders { first, second } => push_pair(out, "TwoHeaders", *first, *second),
        DocError::BadResourceId { index } => write!(out, "BadResourceId {index}"),
        DocError::DuplicateId { first, second } => push_pair(out, "DuplicateId", *first, *second),
        DocError::BadDependsOn { index } => write!(out, "BadDependsOn {index}"),
        DocError::DependsUnknown { index, name } => {
            write!(out, "DependsUnknown {index}")?;
            push_text(out, name)
        }
        DocError::Memory => out.push_str("Memory"),
    }
}

// A name that an instance repeats.
fn push_repeated(out: &mut String, index: u32, name: &Ident) -> Result<(), AllocError>
    ensures { OnOk result (string_bytes out.new
        ≡ string_bytes out.old ++ repeated_words index name.now) }
{
    write!(out, "DuplicateProperty {index}")?;
    push_ident(out, name)
}

/// Appends a name and the places of two instances.
pub fn push_pair(out: &mut String, name: &str, first: u32, second: u32) -> Result<(), AllocError>
    ensures { OnOk result (string_bytes out.new
        ≡ string_bytes out.old ++ pair_words name.now first second) }
{
    out.push_str(name)?;
    write!(out, " {first} {second}")
}

/// Appends a space and a text as a literal.
pub fn push_text(out: &mut String, text: &Text) -> Result<(), AllocError>
    ensures { OnOk result (string_bytes out.new
        ≡ string_bytes out.old ++ codes " " ++ quoted text.now) }
{
    out.push_str(" ")?;
    push_literal(out, text.as_slice())
}

/// Appends a space and an identifier.
pub fn push_ident(out: &mut String, name: &Ident) -> Result<(), AllocError>
    ensures { OnOk result (string_bytes out.new
        ≡ string_bytes out.old ++ codes " " ++ encode_utf8_all name.now) }
{
    out.push_str(" ")?;
    let text: String = name.as_slice().iter().copied().collect(*out.allocator())?;
    out.push_str(text.as_str())
}

// Two instances with the same id.
fn push_same_ids(out: &mut String, first: Spot, second: Spot) -> Result<(), AllocError>
    ensures { OnOk result (string_bytes out.new
        ≡ string_bytes out.old ++ same_id_words first second) }
{
    out.push_str("DuplicateId ")?;
    push_spot(out, first)?;
    out.push_str(" ")?;
    push_spot(out, second)
}

fn push_spot(out: &mut String, spot: Spot) -> Result<(), AllocError>
    ensures { OnOk result (string_bytes out.new ≡ string_bytes out.old ++ spot_words spot) }
{
    let Spot { part, index } = spot;
    write!(out, "{part}.{index}")
}

/// Appends the places of a walk, a space before each.
pub fn push_places(out: &mut String, places: &[u32]) -> Result<(), AllocError>
    ensures { OnOk result (string_bytes out.new
        ≡ string_bytes out.old ++ flat_map place_words places.now) }
{
    for place in places {
        write!(out, " {place}")?;
    }
    Ok(())
}
