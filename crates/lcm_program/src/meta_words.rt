//! The printed reasons for which an input declares no meta-configuration.
ghost use Rattle.std.specs.Prelude.{◌≡◌, ◌++◌, OnOk, string_bytes};
ghost use Rattle.lcm_program.specs.InputWords.{bad_value_words, limit_name, meta_words, unknown_part_words};

use crate::merge_words::{push_ident, push_pair, push_text};
use crate::mof_words::push_mof_error;
use meta_config::{Limit, MetaError};
use mof_values::{Ident, Text};
use std::alloc::AllocError;

/// Appends the name of a meta-configuration's refusal, and its values.
pub fn push_meta_error(out: &mut String, error: &MetaError) -> Result<(), AllocError>
    ensures { OnOk result (string_bytes out.new ≡ string_bytes out.old ++ meta_words error.now) }
{
    match error {
        MetaError::Mof(error) => push_mof_error(out, *error),
        MetaError::NoMeta => out.push_str("NoMeta"),
        MetaError::TwoMetas { first, second } => push_pair(out, "TwoMetas", *first, *second),
        MetaError::TwoManagers { first, second } => push_pair(out, "TwoManagers", *first, *second),
        MetaError::BadUrl { index } => write!(out, "BadUrl {index}"),
        MetaError::TwoServers { first, second } => push_pair(out, "TwoServers", *first, *second),
        MetaError::BadValue { index, name } => push_bad_value(out, *index, name),
        MetaError::TooMany { name } => push_limit(out, *name),
        MetaError::DuplicatePartial { first, second } => {
            push_pair(out, "DuplicatePartial", *first, *second)
        }
        MetaError::DependsUnknown { index, name } => push_unknown_part(out, *index, name),
        MetaError::Memory => out.push_str("Memory"),
    }
}

// An instance and the name of its property.
fn push_bad_value(out: &mut String, index: u32, name: &Ident) -> Result<(), AllocError>
    ensures { OnOk result (string_bytes out.new
        ≡ string_bytes out.old ++ bad_value_words index name.now) }
{
    write!(out, "BadValue {index}")?;
    push_ident(out, name)
}

fn push_limit(out: &mut String, limit: Limit) -> Result<(), AllocError>
    ensures { OnOk result (string_bytes out.new
        ≡ string_bytes out.old ++ meta_words (MetaError.TooMany limit)) }
{
    out.push_str("TooMany ")?;
    out.push_str(limit_name(limit))
}

fn limit_name(limit: Limit) -> &'static str
    ensures { result.now ≡ limit_name limit }
{
    match limit {
        Limit::Partials => "partials",
        Limit::Names => "names",
        Limit::Text => "text",
    }
}

// An instance and a name that no partial configuration has.
fn push_unknown_part(out: &mut String, index: u32, name: &Text) -> Result<(), AllocError>
    ensures { OnOk result (string_bytes out.new
        ≡ string_bytes out.old ++ unknown_part_words index name.now) }
{
    write!(out, "DependsUnknown {index}")?;
    push_text(out, name)
}
