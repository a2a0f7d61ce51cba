//! The moment that a text says.
ghost use Rattle.std.specs.Prelude.{◌≡◌, IfOk};
ghost use Rattle.agent_line.specs.Moments.{from_zero, moment_in, moment_said};

use jiff::Timestamp;
use mof_values::Text;
use std::alloc::AllocError;

/// The whole seconds since 1970-01-01T00:00:00Z of the moment that a text says; none where it says none, or one before that.
pub fn moment_in(text: &Text) -> Result<Option<u64>, AllocError>
    ensures { IfOk result (λ moment. moment ≡ moment_in text.now) }
{
    let written = text.to_utf8()?;
    Ok(moment_said(written.as_str()))
}

#[tactic(auto, unfolding(crate::specs::Moments::moment_said))]
fn moment_said(text: &str) -> Option<u64>
    ensures { result ≡ moment_said text.now }
{
    match text.parse::<Timestamp>() {
        Ok(instant) => from_zero(instant.as_second()),
        Err(_) => None,
    }
}

fn from_zero(second: i64) -> Option<u64>
    ensures { result ≡ from_zero second }
{
    if second < 0 {
        None
    } else {
        Some(second as u64)
    }
}
