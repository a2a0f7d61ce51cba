//! What no clause says: where tokens stand in worked texts, that ample memory is enough, and the printed texts.
use mof_syntax::*;
use std::fmt::Display;
use std::test::Fail;

// What says that a row holds.
fn holds(is_so: bool, row: impl Display + Drop) -> Result<(), Fail> {
    if is_so {
        return Ok(());
    }
    Err(Fail::new(row))
}

// That many characters `a` after a mark, each the bytes of a unit.
fn encoded(rt: &impl AllocGlobal, mark: &[u8], unit: &[u8], count: usize) -> Result<Vec<u8>, Fail> {
    let mut bytes = Vec::new(rt.alloc());
    bytes.extend_from_slice(mark)?;
    for _ in 0..count {
        bytes.extend_from_slice(unit)?;
    }
    Ok(bytes)
}

fn are_decoded(rt: &impl AllocGlobal, bytes: &[u8], count: usize) -> bool {
    match decode_text(rt.alloc(), bytes) {
        Ok(text) => text.as_str().chars().count() == count,
        Err(_) => false,
    }
}

const ENCODINGS: &[(&[u8], &[u8])] = &[
    (b"", b"a"),
    (b"\xef\xbb\xbf", b"\xe2\x82\xac"),
    (b"\xff\xfe", b"a\x00"),
    (b"\xfe\xff", b"\xd8\x3d\xde\x00"),
];

#[test]
fn ample_memory_is_enough_for_each_size(rt: HostRuntime) -> Result<(), Fail> {
    for (mark, unit) in ENCODINGS.iter() {
        for count in [0, 1, 2, 7, 63, 64, 65, 4096, 524_287] {
            let bytes = encoded(&rt, mark, unit, count)?;
            holds(are_decoded(&rt, &bytes, count), count)?;
        }
    }
    Ok(())
}

// Each token as the letter of its kind, where it begins and where it ends; then where the walk ended.
fn walked(rt: &impl AllocGlobal, text: &str) -> Result<String, Fail> {
    if text::char_count(text) > 1000 {
        return Err("a text for a table is short".into());
    }
    let mut out = String::new(rt.alloc());
    let mut all = tokens(text);
    while let Some(token) = all.next() {
        let letter = match token.kind {
            TokenKind::Word => "W",
            TokenKind::Alias => "A",
            TokenKind::Literal => "L",
            TokenKind::Integer => "I",
            TokenKind::Mark => "M",
        };
        write!(out, "{letter}{}-{} ", token.from, token.to)?;
    }
    write!(out, "@{}", all.place())?;
    Ok(out)
}

const WALKS: &[(&str, &str)] = &[
    ("", "@0"),
    ("  \t\r\n", "@5"),
    (
        "instance of as as $of {};",
        "W0-8 W9-11 W12-14 W15-17 A18-21 M22-23 M23-24 M24-25 @25",
    ),
    ("X=\"ab\" \"c\";", "W0-1 M1-2 L2-6 L7-10 M10-11 @11"),
    ("// a", "@4"),
    ("// a\nb", "W5-6 @6"),
    ("// a\rb", "@6"),
    ("/* a */b", "W7-8 @8"),
    ("/**/b/***/", "W4-5 @10"),
    ("/*/", "@0"),
    ("a/* b", "W0-1 @1"),
    ("a /x", "W0-1 @2"),
    ("0 00 -0", "I0-1 I2-4 I5-7 @7"),
    ("08", "@0"),
    ("07 08", "I0-2 @3"),
    ("0x", "@0"),
    ("0x1F,+0Xff", "I0-4 M4-5 I5-10 @10"),
    ("101b 1B 0b 12b", "I0-4 I5-7 I8-10 @11"),
    ("1a", "@0"),
    ("+", "@0"),
    ("1.5", "I0-1 @1"),
    ("99999999999999999999", "I0-20 @20"),
    ("$", "@0"),
    ("$1", "@0"),
    ("$A$B", "A0-2 A2-4 @4"),
    ("\"\\b\\t\\n\\f\\r\\\"\\'\\\\\"", "L0-18 @18"),
    ("\"\\B\"", "@0"),
    (
        "\"\\x4\"\"\\x41g\"\"\\X041\"\"\\x0041F\"",
        "L0-5 L5-12 L12-19 L19-28 @28",
    ),
    ("\"\\x\"", "@0"),
    ("\"\\xD800\"", "@0"),
    ("\"\\xD80g\\xE000\"", "L0-14 @14"),
    ("\"a\nb\"", "L0-5 @5"),
    ("\"ab", "@0"),
    ("\u{feff}_9\u{ffef}", "W0-4 @4"),
    ("\u{fff0}", "@0"),
    ("a'b'", "W0-1 @1"),
];

#[test]
fn a_text_is_walked_token_by_token(rt: HostRuntime) -> Result<(), Fail> {
    for (text, want) in WALKS.iter() {
        holds(walked(&rt, text)?.as_str() == *want, *text)?;
    }
    Ok(())
}

const SENTENCES: &[(MofError, &str)] = &[
    (MofError::TooLong, "longer than a document may be"),
    (MofError::Text { at: 2 }, "no character at byte 2"),
    (
        MofError::Syntax { at: 23 },
        "not in the grammar at character 23",
    ),
    (
        MofError::OutOfProfile {
            at: 20,
            what: Form::Real,
        },
        "real at character 20 is out of the profile",
    ),
    (
        MofError::OutOfProfile {
            at: 0,
            what: Form::Pragma,
        },
        "pragma at character 0 is out of the profile",
    ),
    (
        MofError::OutOfProfile {
            at: 0,
            what: Form::Qualifiers,
        },
        "qualifiers at character 0 is out of the profile",
    ),
    (
        MofError::OutOfProfile {
            at: 0,
            what: Form::Class,
        },
        "class at character 0 is out of the profile",
    ),
    (
        MofError::OutOfProfile {
            at: 0,
            what: Form::Qualifier,
        },
        "qualifier at character 0 is out of the profile",
    ),
    (
        MofError::OutOfProfile {
            at: 7,
            what: Form::Character,
        },
        "character at character 7 is out of the profile",
    ),
    (
        MofError::NumberRange { at: 72 },
        "integer at character 72 out of range",
    ),
    (MofError::TooMany { at: 5 }, "past a limit at character 5"),
    (MofError::Memory, "out of memory"),
];

fn prints(rt: &impl AllocGlobal, error: &impl Display, text: &str) -> Result<bool, Fail> {
    Ok(error.to_string(rt.alloc())?.as_str() == text)
}

#[test]
fn errors_are_printed_as_sentences(rt: HostRuntime) -> Result<(), Fail> {
    for (error, text) in SENTENCES.iter() {
        holds(prints(&rt, error, text)?, *text)?;
    }
    holds(
        prints(
            &rt,
            &TextError::TextFault { at: 3 },
            "no character at byte 3",
        )?,
        "a text fault",
    )?;
    holds(prints(&rt, &TextError::Memory, "out of memory")?, "memory")
}
