//! Reading of the target of a request.
ghost use Rattle.std.specs.Prelude.{◌≡◌, ◌<◌, ◌^◌, ◌↔◌, ℕ, List, Some, IfOk, IfSome, length, encode_utf8_all};
ghost use Rattle.pull_messages.specs.Targets.{IsTarget, IsLongestFront};
ghost use Rattle.pull_messages.specs.BadTargets.{IfBad};
ghost use Rattle.pull_messages.specs.Decoding.{IsDecoded};
ghost use Rattle.pull_messages.specs.Escapes.{AreChars};
ghost use Rattle.pull_messages.specs.FleetTargets.{IsFleetTarget};
ghost use Rattle.pull_messages.specs.declared.target_kinds.FleetTarget.{FleetTarget as FleetTargetValue};
ghost use Rattle.pull_messages.specs.declared.target_kinds.Target.{Target as TargetValue};

use crate::escapes::{front_size, unescape};
use crate::fleet_forms::spelled_fleet_target;
use crate::forms::spelled_target;
use crate::parts::Stop;
use crate::target_error::TargetError;
use crate::target_kinds::{FleetTarget, Target};
use mof_values::{Memory, Text};
use std::alloc::{AllocError, Global};
use std::str;

/// Reads a target: escapes are decoded, names compare by fold, and text values stand in quotes, each quote in them
/// doubled, with 1 to `MAX_NAME_BYTES` bytes of UTF-8.
pub fn target(alloc: Global, text: &[u8]) -> Result<Target, TargetError>
    ensures ok { IfOk result (IsTarget text.now) }
    ensures only { IfOk result (λ found. (t : TargetValue) → IsTarget text.now t → t ≡ found) }
    ensures bad { IfBad result (IsLongestFront text.now) }
    ensures refused { IfBad result (λ _. (t : TargetValue) → IsTarget text.now t → ⊥) }
{
    let bytes = unescape(alloc, text)?;
    let spelled = decoded(alloc, bytes.as_slice())?;
    let chars = spelled.as_slice();
    match spelled_target(alloc, chars) {
        Ok(target) => {
            let at = front_size(text, encoded_size(chars));
            if at == text.len() {
                Ok(target)
            } else {
                Err(TargetError::BadTarget { at })
            }
        }
        Err(Stop::Left(left)) => {
            let at = front_size(text, encoded_size(&chars[..chars.len() - left]));
            Err(TargetError::BadTarget { at })
        }
        Err(Stop::Memory) => Err(TargetError::Memory),
    }
}

/// Reads a target of the fleet: the path of a report of an agent, by its job, or of the summary; none where the text
/// is neither. A text that is one is no other target.
pub fn fleet_target(alloc: Global, text: &[u8]) -> Result<Option<FleetTarget>, Memory>
    ensures found { IfOk result (λ found. (t : FleetTargetValue) → (found ≡ Some t)
        ↔ IsFleetTarget text.now t) }
    ensures apart { IfOk result (λ found. IfSome found (λ _. (t : TargetValue)
        → IsTarget text.now t → ⊥)) }
{
    let Some(chars) = whole_chars(alloc, text)? else {
        return Ok(None);
    };
    match spelled_fleet_target(alloc, chars.as_slice()) {
        Ok(target) => Ok(Some(target)),
        Err(Stop::Left(_)) => Ok(None),
        Err(Stop::Memory) => Err(Memory),
    }
}

// The characters of a text that is nothing else.
fn whole_chars(alloc: Global, text: &[u8]) -> Result<Option<Text>, AllocError>
    ensures { IfOk result (λ found. (chars : List ℕ) → (found ≡ Some chars) ↔ AreChars chars text.now) }
{
    let bytes = unescape(alloc, text)?;
    let chars = decoded(alloc, bytes.as_slice())?;
    if front_size(text, encoded_size(chars.as_slice())) == text.len() {
        Ok(Some(chars))
    } else {
        Ok(None)
    }
}

// The characters of the longest front that is UTF-8.
fn decoded(alloc: Global, bytes: &[u8]) -> Result<Text, AllocError>
    ensures { IfOk result (λ text. IsDecoded bytes.now text) }
{
    match str::from_utf8(bytes) {
        Ok(text) => Text::from_utf8(alloc, text),
        Err(error) => {
            match str::from_utf8(&bytes[..error.valid_up_to()]) {
                Ok(text) => Text::from_utf8(alloc, text),
                Err(_) => unreachable!(),
            }
        }
    }
}

// How many bytes of UTF-8 the characters have.
fn encoded_size(chars: &[char]) -> usize
    requires { length (encode_utf8_all chars.now) < 2 ^ 64 }
    ensures { result ≡ length (encode_utf8_all chars.now) }
{
    let mut size = 0;
    let mut left = chars;
    while let [c, rest @ ..] = left {
        size += c.len_utf8();
        left = rest;
    }
    size
}
