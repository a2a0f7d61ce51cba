//! Decodes bytes to texts.
ghost use Rattle.std.specs.Prelude.{◌≡◌, ◌≢◌, ◌++◌, ◌+◌, ◌^◌, ◌<◌, length, IfOk, IfErr, IfSome, IfNone, IsErrOf};
ghost use Rattle.std.specs.Str.{chars};
ghost use Rattle.std.specs.Cow.{cow_str_bytes, IsBorrowedStr, IsOwnedStr};
ghost use Rattle.mof_syntax.specs.Encodings.{Chars, AreNoChars, unit_bytes, StartsNoChar, RefusesBytes, HasUtf16Mark, IsRestOf};
ghost use Rattle.mof_syntax.specs.Decoding.{RefusesBody, IsBody, StartsChar};
ghost use Rattle.mof_syntax.specs.declared.encoding.Encoding.TheVariants.{Utf8, Utf16};
ghost use Rattle.mof_syntax.specs.declared.text_error.TextError.TheVariants.{Memory};

use crate::encoding::{ByteOrder, Encoding, split_mark};
use crate::text_error::TextError;
use std::alloc::Global;
use std::borrow::CowStr;

/// The text that the bytes are: UTF-8 is borrowed as it stands, and UTF-16 with a mark is rewritten in UTF-8, for which
/// alone memory is taken. The mark is no character of the text.
pub fn decode_text(alloc: Global, bytes: &[u8]) -> Result<CowStr<'_, Global>, TextError>
    ensures ok { IfOk result (λ text. Chars bytes.now (chars (cow_str_bytes text))) }
    ensures refused { IfErr result (λ e. RefusesBytes bytes.now e) }
    ensures only { IfErr result (λ e. e ≢ Memory → AreNoChars bytes.now) }
    ensures memory { IsErrOf result Memory → HasUtf16Mark bytes.now }
    ensures borrowed { IfOk result (λ t. IsBorrowedStr t → IsRestOf bytes.now (cow_str_bytes t)) }
    ensures owned { IfOk result (λ t. IsOwnedStr t → HasUtf16Mark bytes.now) }
{
    let (encoding, body) = split_mark(bytes);
    let marked = bytes.len() - body.len();
    match encoding {
        Encoding::Utf8 | Encoding::Utf8Marked => decode_utf8(body, marked),
        Encoding::Utf16(order) => decode_utf16(alloc, order, body, marked),
    }
}

// Places count the bytes before the body too.
fn decode_utf8(body: &[u8], marked: usize) -> Result<CowStr<'_, Global>, TextError>
    requires { marked + length body.now < 2 ^ 64 }
    ensures ok { IfOk result (λ text. IsBody Encoding.Utf8 body.now (chars (cow_str_bytes text))) }
    ensures refused { IfErr result (λ e. RefusesBody Encoding.Utf8 body.now marked e) }
    ensures same { IfOk result (λ text. cow_str_bytes text ≡ body.now) }
    ensures borrowed { IfOk result (λ text. IsOwnedStr text → ⊥) }
{
    match str::from_utf8(body) {
        Ok(text) => Ok(CowStr::Borrowed(text)),
        Err(e) => Err(TextError::TextFault {
            at: marked + e.valid_up_to(),
        }),
    }
}

fn decode_utf16(
    alloc: Global,
    order: ByteOrder,
    body: &[u8],
    marked: usize,
) -> Result<CowStr<'_, Global>, TextError>
    requires { marked + length body.now < 2 ^ 64 }
    ensures ok { IfOk result (λ text. IsBody (Encoding.Utf16 order) body.now (chars (cow_str_bytes text))) }
    ensures refused { IfErr result (λ e. RefusesBody (Encoding.Utf16 order) body.now marked e) }
    ensures owned { IfOk result (λ text. IsBorrowedStr text → ⊥) }
{
    let mut text = String::new(alloc);
    let mut left = body;
    while !left.is_empty() {
        let Some((c, rest)) = first_char(order, left) else {
            return Err(TextError::TextFault {
                at: marked + (body.len() - left.len()),
            });
        };
        text.push(c)?;
        left = rest;
    }
    Ok(CowStr::Owned(text))
}

// The character that begins the bytes of UTF-16, and the rest.
fn first_char(order: ByteOrder, bytes: &[u8]) -> Option<(char, &[u8])>
    ensures some { IfSome result (λ found. StartsChar (Encoding.Utf16 order) bytes.now found.0 found.1.now) }
    ensures none { IfNone result (StartsNoChar (Encoding.Utf16 order) bytes.now) }
{
    let (unit, after) = first_unit(order, bytes)?;
    match unit {
        0xd800..=0xdbff => {
            let (low, rest) = first_unit(order, after)?;
            match low {
                0xdc00..=0xdfff => {
                    let code = 0x1_0000
                        + (u32::from(unit) - 0xd800) * 0x400
                        + (u32::from(low) - 0xdc00);
                    Some((char::from_u32(code)?, rest))
                }
                _ => None,
            }
        }
        _ => Some((char::from_u32(u32::from(unit))?, after)),
    }
}

// The unit of UTF-16 that begins the bytes, and the rest.
fn first_unit(order: ByteOrder, bytes: &[u8]) -> Option<(u16, &[u8])>
    ensures some { IfSome result (λ found. bytes.now ≡ unit_bytes order found.0 ++ found.1.now) }
    ensures none { IfNone result (length bytes.now < 2) }
{
    let [first, second, rest @ ..] = bytes else {
        return None;
    };
    let (least, greatest) = match order {
        ByteOrder::LittleEndian => (*first, *second),
        ByteOrder::BigEndian => (*second, *first),
    };
    Some((u16::from(greatest) * 256 + u16::from(least), rest))
}
