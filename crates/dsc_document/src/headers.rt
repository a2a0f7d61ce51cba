//! Checks that there is one header.
ghost use Rattle.std.specs.Prelude.{◌≡◌, ◌+◌, ◌<◌, ◌≤◌, ◌^◌, ℕ, length, IfOk, MatchOption};
ghost use Rattle.dsc_document.specs.Rules.{some_header, one_header};
ghost use Rattle.dsc_document.specs.Tests.{Tests, IsHeaderAt, IsNextHeader};

use crate::DocError;
use crate::declarations::is_header;
use mof_values::Instance;

/// The place of the first header.
pub fn first_header(instances: &[Instance]) -> Result<usize, DocError>
    requires { length instances.now < 2 ^ 32 }
    ensures tested { Tests some_header instances.now result }
    ensures first { IfOk result (IsNextHeader instances.now 0) }
{
    match header_from(instances, 0) {
        Some(first) => Ok(first),
        None => Err(DocError::NoHeader),
    }
}

/// Finds a second header.
pub fn check_one_header(instances: &[Instance], first: usize) -> Result<(), DocError>
    requires few { length instances.now < 2 ^ 32 }
    requires first { IsNextHeader instances.now 0 first }
    ensures { Tests one_header instances.now result }
{
    match header_from(instances, first + 1) {
        Some(second) => Err(DocError::TwoHeaders {
            first: first as u32,
            second: second as u32,
        }),
        None => Ok(()),
    }
}

// The place of the first header at `from` or after it.
fn header_from(instances: &[Instance], from: usize) -> Option<usize>
    requires { from ≤ length instances.now }
    ensures { MatchOption result ((k : ℕ) → from ≤ k → IsHeaderAt instances.now k → ⊥)
        (IsNextHeader instances.now from) }
{
    for index in from..instances.len() {
        if is_header(&instances[index]) {
            return Some(index);
        }
    }
    None
}
