//! Texts of other machines as a terminal may show them.
ghost use Rattle.std.specs.Prelude.{◌≡◌, ◌++◌, IfOk, OnOk, encode_utf8_all, map, string_bytes};
ghost use Rattle.agent_line.specs.Table.{harmless, harmless_text, is_control, is_hidden, is_hidden_above, is_hidden_format, is_hidden_mark};

use mof_values::Text;
use std::alloc::{AllocError, Global};

/// Adds a text in UTF-8 with U+FFFD in place of each control character, and of each that is not seen, turns what follows or ends a
/// line (Default_Ignorable_Code_Point and Bidi_Control of the Unicode Character Database, and a few more).
#[tactic(auto, unfolding(crate::specs::Table::harmless_text))]
pub fn push_harmless(out: &mut Vec<u8>, alloc: Global, text: &Text) -> Result<(), AllocError>
    ensures { OnOk result (out.new.items ≡ out.old.items ++ harmless_text text.now) }
{
    let shown = in_utf8(alloc, text.as_slice())?;
    out.extend_from_slice(shown.as_bytes())
}

fn in_utf8(alloc: Global, chars: &[char]) -> Result<String, AllocError>
    ensures { IfOk result (λ text. string_bytes text ≡ encode_utf8_all (map harmless chars.now)) }
{
    chars.iter().map(|c| harmless(*c)).collect(alloc)
}

fn harmless(c: char) -> char
    ensures { result ≡ harmless c }
{
    let code = c as u32;
    if is_control(code) || is_hidden(code) {
        '\u{FFFD}'
    } else {
        c
    }
}

fn is_control(code: u32) -> bool
    ensures { result ≡ is_control code }
{
    code <= 31 || (127 <= code && code <= 159)
}

fn is_hidden(code: u32) -> bool
    ensures { result ≡ is_hidden code }
{
    is_hidden_mark(code) || is_hidden_format(code) || is_hidden_above(code)
}

fn is_hidden_mark(code: u32) -> bool
    ensures { result ≡ is_hidden_mark code }
{
    matches!(
        code,
        173 | 847 | 1564 | 4447..=4448 | 6068..=6069 | 6155..=6159 | 12644
    )
}

fn is_hidden_format(code: u32) -> bool
    ensures { result ≡ is_hidden_format code }
{
    matches!(
        code,
        8203..=8207 | 8232..=8238 | 8288..=8303 | 65024..=65039 | 65279 | 65440 | 65520..=65531
    )
}

fn is_hidden_above(code: u32) -> bool
    ensures { result ≡ is_hidden_above code }
{
    matches!(code, 113824..=113827 | 119155..=119162 | 917504..=921599)
}
