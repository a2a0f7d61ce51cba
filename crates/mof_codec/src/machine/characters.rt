//! What a character begins.
ghost use Rattle.std.specs.Prelude.{◌≡◌, IfSome, IfNone, true, false};
ghost use Rattle.std.specs.Char.{digit_value};
ghost use Rattle.mof_syntax.specs.Characters.{digit_of};
ghost use Rattle.mof_codec.specs.Machine.{kind_of};

/// What a character begins.
#[derive(Clone, Copy, Debug, PartialEq, Eq)]
pub(crate) enum Kind {
    Letter,
    Digit,
    Sign,
    Quote,
    Dollar,
    LeftBrace,
    RightBrace,
    EqualsSign,
    Semicolon,
    Comma,
    Blank,
    Slash,
    Other,
}

pub(crate) fn kind_of(c: char) -> Kind
    ensures { result ≡ kind_of c }
{
    match c {
        'a'..='z' | 'A'..='Z' | '_' | '\u{80}'..='\u{ffef}' => Kind::Letter,
        '0'..='9' => Kind::Digit,
        '+' | '-' => Kind::Sign,
        '"' => Kind::Quote,
        '$' => Kind::Dollar,
        '{' => Kind::LeftBrace,
        '}' => Kind::RightBrace,
        '=' => Kind::EqualsSign,
        ';' => Kind::Semicolon,
        ',' => Kind::Comma,
        ' ' | '\t' | '\n' | '\r' => Kind::Blank,
        '/' => Kind::Slash,
        _ => Kind::Other,
    }
}

/// The value of a hexadecimal digit.
pub(crate) fn hex_value(c: char) -> Option<u16>
    ensures some { IfSome result (λ v. (v ≡ digit_value c) × (digit_of 16 c ≡ true)) }
    ensures none { IfNone result (digit_of 16 c ≡ false) }
{
    match c.to_digit(16) {
        Some(value) => Some(value as u16),
        None => None,
    }
}
