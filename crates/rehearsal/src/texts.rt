//! Texts of a script.
ghost use Rattle.std.specs.Prelude.{◌≡◌, ◌≤◌, length};
ghost use Rattle.rehearsal.specs.Script.{text_named};
ghost use Rattle.rehearsal.specs.declared.limits.TheConstants.{MAX_SCRIPT};

use crate::limits::MAX_SCRIPT;
use crate::words::Word;
use std::marker::Model;

/// Bytes of a script. A clause sees them as a list.
#[derive(Debug, Drop)]
pub struct ScriptText<'a> {
    bytes: &'a [u8],
}

impl<'a> Model for ScriptText<'a> {
    ghost use Rattle.std.specs.Prelude.{ℕ, ◌≤◌, List, length};
    ghost use Rattle.rehearsal.specs.declared.limits.TheConstants.{MAX_SCRIPT};

    ghost Value = { List ℕ };

    ghost view = { λ t. t.bytes.now };

    ghost invariant = { λ t. length t.bytes.now ≤ MAX_SCRIPT };
}

impl<'a> ScriptText<'a> {
    pub(crate) fn of(bytes: &'a [u8]) -> ScriptText<'a>
        requires { length bytes.now ≤ MAX_SCRIPT }
        ensures { result ≡ bytes.now }
    {
        ScriptText { bytes }
    }

    /// At most `MAX_SCRIPT` bytes.
    pub fn as_slice(&self) -> &'a [u8]
        ensures bytes { result.now ≡ self.now }
        ensures short { length result.now ≤ MAX_SCRIPT }
    {
        self.bytes
    }

    pub(crate) fn copied(&self) -> ScriptText<'a>
        ensures { result ≡ self.now }
    {
        ScriptText { bytes: self.bytes }
    }
}

/// A text, and the name that it has from its line on.
#[derive(Debug, Drop)]
pub struct NamedText<'a> {
    pub name: Word<'a>,
    pub text: ScriptText<'a>,
}

/// The latest text of that name.
pub fn find_text<'a>(texts: &[NamedText<'a>], name: &str) -> Option<ScriptText<'a>>
    ensures { result ≡ text_named name.now texts.now }
{
    let mut found = None;
    for text in texts {
        if text.name.as_str() == name {
            found = Some(text.text.copied());
        }
    }
    found
}
