//! Names and texts as a script spells them.
ghost use Rattle.std.specs.Prelude.{◌≡◌, ◌∷◌, [], ◌↔◌, drop, IfSome, IfNone, IsTrue};
ghost use Rattle.std.specs.Str.{chars};
ghost use Rattle.mof_values.specs.Fold.{SameName, same_name};
ghost use Rattle.config_script.specs.Named.{name_chars};

use mof_syntax::text::first_char;

/// A name or a text.
#[derive(Clone, Copy, Debug, PartialEq, Eq)]
pub(crate) enum Name<'a> {
    /// It stands for itself.
    Plain(&'a str),

    /// In it a quote is written twice.
    Doubled(&'a str),
}

impl<'a> Name<'a> {
    /// The character that comes first, and the name after it.
    pub(crate) fn first(self) -> Option<(char, Name<'a>)>
        ensures some { IfSome result (λ found. name_chars self.entry ≡ found.0 ∷ name_chars found.1) }
        ensures none { IfNone result (name_chars self.entry ≡ []) }
    {
        match self {
            Name::Plain(text) => {
                let (c, rest) = first_char(text)?;
                Some((c, Name::Plain(rest)))
            }
            Name::Doubled(text) => {
                let (c, rest) = first_char(text)?;
                if c == '\'' {
                    Some((c, Name::Doubled(after_one(rest))))
                } else {
                    Some((c, Name::Doubled(rest)))
                }
            }
        }
    }

    /// Returns whether the folds of the name and of the characters are equal.
    pub(crate) fn is_same(self, chars: &[char]) -> bool
        ensures { IsTrue result ↔ SameName (name_chars self.entry) chars.now }
    {
        let (mut left, mut others) = (self, chars);
        while let [d, after @ ..] = others {
            let Some((c, rest)) = left.first() else {
                return false;
            };
            if c.to_ascii_lowercase() != d.to_ascii_lowercase() {
                return false;
            }
            (left, others) = (rest, after);
        }
        left.first().is_none()
    }
}

// What is after the first character, where there is one.
fn after_one(text: &str) -> &str
    ensures { chars result.now ≡ drop 1 (chars text.now) }
{
    match first_char(text) {
        Some((_, rest)) => rest,
        None => text,
    }
}

/// Returns whether the text is an ASCII word by fold.
pub(crate) fn is_word(text: &str, word: &str) -> bool
    ensures { result ≡ same_name (chars text.now) word.now }
{
    is_folded(text, word)
}

fn is_folded(text: &str, word: &str) -> bool
    ensures { IsTrue result ↔ SameName (chars text.now) word.now }
{
    if text.len() < word.len() {
        return false;
    }
    let (mut left, mut codes) = (text, word.as_bytes());
    while let Some((c, rest)) = first_char(left) {
        let [code, others @ ..] = codes else {
            return false;
        };
        if c.to_ascii_lowercase() as u32 != code.to_ascii_lowercase() as u32 {
            return false;
        }
        (left, codes) = (rest, others);
    }
    codes.is_empty()
}
