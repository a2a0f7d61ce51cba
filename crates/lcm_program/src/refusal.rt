//! Refusals and their lines.
ghost use Rattle.std.specs.Prelude.{◌≡◌, ◌++◌, [], is_some, option_map, unwrap_or, codes, IfOk, OnOk, string_bytes};
ghost use Rattle.lcm_program.specs.InputWords.{error_words};
ghost use Rattle.lcm_program.specs.Refusal.{line_of, reason_of, why_word};

use crate::compile_words::push_compile_error;
use crate::merge_words::{push_fit_error, push_merge_error, push_places};
use crate::meta_words::push_meta_error;
use crate::mof_words::push_mof_error;
use crate::peer_words::push_peer_fault;
use dsc_node::{InputError, Status};
use node_state::Why;
use std::alloc::{AllocError, Global};

/// Returns whether the status is a refusal, of which a line is printed.
pub fn is_refusal(status: &Status) -> bool
    ensures { result ≡ is_some (reason_of status.now) }
{
    match status {
        Status::Usage { .. }
        | Status::InputRefused(_)
        | Status::ReadFault
        | Status::DiskFault
        | Status::ClockFault
        | Status::LinkFault
        | Status::HostFault
        | Status::NotAStore { .. }
        | Status::PeerRefused(_)
        | Status::NotAllowed(_)
        | Status::RebootWaiting => true,
        Status::Done
        | Status::NotCompliant { .. }
        | Status::WriteFault
        | Status::RebootAsked { .. }
        | Status::Memory => false,
    }
}

/// The line of the refusal that the status is; nothing where it is none.
pub fn refusal_line(alloc: Global, status: &Status) -> Result<String, AllocError>
    ensures { IfOk result (λ line. string_bytes line
        ≡ unwrap_or (option_map line_of (reason_of status.now)) []) }
{
    if !is_refusal(status) {
        return Ok(String::new(alloc));
    }
    let mut out = String::new(alloc);
    out.push_str("refused ")?;
    push_reason(&mut out, status)?;
    out.push_str("\n")?;
    Ok(out)
}

// Appends the name of the refusal that the status is, and its values; nothing where it is none.
fn push_reason(out: &mut String, status: &Status) -> Result<(), AllocError>
    ensures { OnOk result (string_bytes out.new
        ≡ string_bytes out.old ++ unwrap_or (reason_of status.now) []) }
{
    match status {
        Status::Usage { word } => write!(out, "Usage {word}"),
        Status::InputRefused(error) => push_input_error(out, error),
        Status::ReadFault => out.push_str("ReadFault"),
        Status::DiskFault => out.push_str("DiskFault"),
        Status::ClockFault => out.push_str("ClockFault"),
        Status::LinkFault => out.push_str("LinkFault"),
        Status::HostFault => out.push_str("HostFault"),
        Status::NotAStore { at } => write!(out, "NotAStore {at}"),
        Status::PeerRefused(fault) => {
            out.push_str("PeerRefused ")?;
            push_peer_fault(out, fault)
        }
        Status::NotAllowed(why) => push_why(out, *why),
        Status::RebootWaiting => out.push_str("RebootWaiting"),
        Status::Done
        | Status::NotCompliant { .. }
        | Status::WriteFault
        | Status::RebootAsked { .. }
        | Status::Memory => Ok(()),
    }
}

fn push_input_error(out: &mut String, error: &InputError) -> Result<(), AllocError>
    ensures { OnOk result (string_bytes out.new ≡ string_bytes out.old ++ error_words error.now) }
{
    match error {
        InputError::TooLong => out.push_str("TooLong"),
        InputError::Mof(error) => push_mof_error(out, *error),
        InputError::Merge(error) => push_merge_error(out, error),
        InputError::Meta(error) => {
            out.push_str("Meta ")?;
            push_meta_error(out, error)
        }
        InputError::Parts(walk) => {
            out.push_str("Parts")?;
            push_places(out, walk.as_slice())
        }
        InputError::Fit(error) => {
            out.push_str("Fit ")?;
            push_fit_error(out, *error)
        }
        InputError::ListTooLong { bytes } => write!(out, "ListTooLong {bytes}"),
        InputError::Compile(error) => {
            out.push_str("Compile ")?;
            push_compile_error(out, error)
        }
        InputError::Script { line } => write!(out, "Script {line}"),
    }
}

// Appends why a node does not allow a command.
fn push_why(out: &mut String, why: Why) -> Result<(), AllocError>
    ensures { OnOk result (string_bytes out.new
        ≡ string_bytes out.old ++ codes "NotAllowed " ++ why_word why) }
{
    let name = name_of(why);
    write!(out, "NotAllowed {name}")
}

fn name_of(why: Why) -> &'static str
    ensures { result.now ≡ why_word why }
{
    match why {
        Why::NoAgent => "NoAgent",
        Why::HasAgent => "HasAgent",
        Why::Disabled => "Disabled",
        Why::NotPull => "NotPull",
        Why::NoServer => "NoServer",
        Why::NotRegistered => "NotRegistered",
        Why::NoName => "NoName",
        Why::PartsDeclared => "PartsDeclared",
        Why::NoPartial => "NoPartial",
        Why::PartNotPush => "PartNotPush",
        Why::NoPrevious => "NoPrevious",
        Why::NoPending => "NoPending",
        Why::NoDocument => "NoDocument",
        Why::NoReboot => "NoReboot",
        Why::WrongJob => "WrongJob",
        Why::NoReport => "NoReport",
    }
}
