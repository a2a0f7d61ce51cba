//! The encodings of texts as bytes.
ghost use Rattle.std.specs.Prelude.{◌≡◌, ◌++◌};
ghost use Rattle.mof_syntax.specs.Encodings.{encoding_of, mark_of};

/// How a text stands as bytes: which its first bytes say, and without a mark there it is UTF-8.
#[derive(Clone, Copy, Debug, PartialEq, Eq)]
pub(crate) enum Encoding {
    Utf8,
    Utf8Marked,
    Utf16(ByteOrder),
}

/// Which byte of a unit comes first: the least, or the greatest.
#[derive(Clone, Copy, Debug, PartialEq, Eq)]
pub(crate) enum ByteOrder {
    LittleEndian,
    BigEndian,
}

/// The encoding, and the bytes after its mark.
pub(crate) fn split_mark(bytes: &[u8]) -> (Encoding, &[u8])
    ensures encoding { result.0 ≡ encoding_of bytes.now }
    ensures body { bytes.now ≡ mark_of result.0 ++ result.1.now }
{
    match bytes {
        [0xef, 0xbb, 0xbf, body @ ..] => (Encoding::Utf8Marked, body),
        [0xff, 0xfe, body @ ..] => (Encoding::Utf16(ByteOrder::LittleEndian), body),
        [0xfe, 0xff, body @ ..] => (Encoding::Utf16(ByteOrder::BigEndian), body),
        _ => (Encoding::Utf8, bytes),
    }
}
