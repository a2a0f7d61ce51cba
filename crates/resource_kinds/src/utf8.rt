//! Texts in UTF-8, as a host takes them.
ghost use Rattle.std.specs.Prelude.{◌≡◌, IfOk, encode_utf8_all, string_bytes};
ghost use Rattle.resource_kinds.specs.Wanted.{folded_utf8};

use mof_values::Text;
use std::alloc::{AllocError, Global};
use std::marker::Model;

/// A text in UTF-8; clauses see its bytes.
#[derive(Debug, Drop)]
pub struct Utf8 {
    text: String,
}

impl Model for Utf8 {
    ghost use Rattle.std.specs.Prelude.{List, ℕ, string_bytes};

    ghost Value = { List ℕ };

    ghost view = { λ u. string_bytes u.text };
}

impl Utf8 {
    pub fn of(text: String) -> Utf8
        ensures { result ≡ string_bytes text }
    {
        Utf8 { text }
    }

    /// The text as it stands.
    pub fn encoded(alloc: Global, text: &[char]) -> Result<Utf8, AllocError>
        ensures { IfOk result (λ u. u ≡ encode_utf8_all text.now) }
    {
        Ok(Utf8::of(text.iter().copied().collect(alloc)?))
    }

    /// A name, folded.
    pub fn folded(alloc: Global, name: &Text) -> Result<Utf8, AllocError>
        ensures { IfOk result (λ u. u ≡ folded_utf8 name.now) }
    {
        let chars = name.as_slice();
        Ok(Utf8::of(chars.iter().map(|c| c.to_ascii_lowercase()).collect(alloc)?))
    }

    pub fn as_str(&self) -> &str
        ensures { result.now ≡ self.now }
    {
        self.text.as_str()
    }

    pub fn as_bytes(&self) -> &[u8]
        ensures { result.now ≡ self.now }
    {
        self.text.as_bytes()
    }
}
