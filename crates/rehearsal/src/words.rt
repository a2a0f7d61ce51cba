//! The words of a line.
ghost use Rattle.std.specs.Prelude.{◌≡◌, ◌++◌, IfOk, IfSome, IfNone, List, ℕ};
ghost use Rattle.rehearsal.specs.Script.{words};

use mof_values::Memory;
use std::alloc::Global;
use std::marker::Model;

/// A word of a line. A clause sees its bytes.
#[derive(Debug, Drop)]
pub struct Word<'a> {
    text: &'a str,
}

impl<'a> Model for Word<'a> {
    ghost use Rattle.std.specs.Prelude.{ℕ, List};

    ghost Value = { List ℕ };

    ghost view = { λ w. w.text.now };
}

impl<'a> Word<'a> {
    pub(crate) fn of(text: &'a str) -> Word<'a>
        ensures { result ≡ text.now }
    {
        Word { text }
    }

    pub fn as_str(&self) -> &'a str
        ensures { result.now ≡ self.now }
    {
        self.text
    }
}

/// The words of a text, which single spaces divide.
pub fn words_of<'a>(alloc: Global, text: &'a str) -> Result<Vec<Word<'a>>, Memory>
    ensures { IfOk result (λ all. all.items ≡ words text.now) }
{
    let mut all = Vec::new(alloc);
    let mut rest = text;
    while let Some((word, more)) = rest.split_once(' ') {
        all.push(Word::of(word))?;
        rest = more;
    }
    all.push(Word::of(rest))?;
    Ok(all)
}

/// What stands after that front.
pub fn after<'a>(text: &'a str, front: &str) -> Option<&'a str>
    ensures some { IfSome result (λ rest. text.now ≡ front.now ++ rest.now) }
    ensures none { IfNone result ((rest : List ℕ) → text.now ≡ front.now ++ rest → ⊥) }
{
    text.strip_prefix(front)
}
