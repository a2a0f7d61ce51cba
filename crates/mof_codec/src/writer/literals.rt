//! Names, and literals of texts.
ghost use Rattle.std.specs.Prelude.{◌≡◌, ◌<◌, ◌++◌, OnOk, string_bytes, encode_utf8_all};
ghost use Rattle.std.specs.List.{flat_map};
ghost use Rattle.mof_syntax.specs.Canonical.{canonical_literal, literal_char, control_escape, hex_glyph};
ghost use Rattle.mof_codec.specs.Written.{Adds, AreChars, IsName};

use mof_values::Ident;
use std::alloc::AllocError;

/// Appends the name as it is spelled.
pub(crate) fn push_name(out: &mut String, name: &Ident) -> Result<(), AllocError>
    ensures text { OnOk result (Adds (string_bytes out.old) (string_bytes out.new) name.now) }
    ensures valid { OnOk result (IsName name.now) }
{
    push_chars(out, name.as_slice())
}

// Appends the characters in UTF-8.
fn push_chars(out: &mut String, chars: &[char]) -> Result<(), AllocError>
    ensures text { OnOk result (Adds (string_bytes out.old) (string_bytes out.new) chars.now) }
    ensures valid { OnOk result (AreChars chars.now) }
{
    let mut left = chars;
    while let [c, rest @ ..] = left {
        out.push(*c)?;
        left = rest;
    }
    Ok(())
}

/// Appends the text as one literal.
pub fn push_literal(out: &mut String, text: &[char]) -> Result<(), AllocError>
    ensures text { OnOk result
        (Adds (string_bytes out.old) (string_bytes out.new) (canonical_literal text.now)) }
    ensures valid { OnOk result (AreChars text.now) }
{
    out.push('"')?;
    push_literal_chars(out, text)?;
    out.push('"')?;
    Ok(())
}

// Appends the characters, each as itself or by its escape.
fn push_literal_chars(out: &mut String, text: &[char]) -> Result<(), AllocError>
    ensures text { OnOk result (Adds (string_bytes out.old) (string_bytes out.new) (flat_map literal_char text.now)) }
    ensures valid { OnOk result (AreChars text.now) }
{
    let mut left = text;
    while let [c, rest @ ..] = left {
        push_literal_char(out, *c)?;
        left = rest;
    }
    Ok(())
}

/// Appends a character of a literal, as itself or by its escape.
pub fn push_literal_char(out: &mut String, c: char) -> Result<(), AllocError>
    ensures { OnOk result (Adds (string_bytes out.old) (string_bytes out.new) (literal_char c)) }
{
    match c {
        '\u{8}' => out.push_str("\\b"),
        '\t' => out.push_str("\\t"),
        '\n' => out.push_str("\\n"),
        '\u{c}' => out.push_str("\\f"),
        '\r' => out.push_str("\\r"),
        '"' => out.push_str("\\\""),
        '\\' => out.push_str("\\\\"),
        '\0'..='\u{1f}' => push_control(out, c as u32),
        _ => out.push(c),
    }
}

// A control character with four digits.
fn push_control(out: &mut String, code: u32) -> Result<(), AllocError>
    requires { code < 32 }
    ensures { OnOk result (Adds (string_bytes out.old) (string_bytes out.new) (control_escape code)) }
{
    out.push_str("\\x00")?;
    out.push(hex_digit(code / 16))?;
    out.push(hex_digit(code % 16))?;
    Ok(())
}

fn hex_digit(digit: u32) -> char
    requires { digit < 16 }
    ensures value { result ≡ hex_glyph digit }
    ensures ascii { result < 128 }
{
    "0123456789ABCDEF".as_bytes()[digit as usize] as char
}
