//! What no clause says: which names are identifiers and the same, that ample memory is enough, and the printed texts.
use mof_values::*;
use std::fmt::Display;
use std::test::Fail;

const IDENTIFIERS: &[(&[u8], bool)] = &[
    (b"a", true),
    (b"Z9", true),
    (b"_", true),
    (b"A_9", true),
    (b"\x80x", true),
    (b"\xff", true),
    (b"OMI_ConfigurationDocument", true),
    (b"9", false),
    (b"a b", false),
    (b"a-", false),
    (b"$a", false),
    (b"\x7f", false),
];

const NAMES: &[(&[u8], &[u8], bool)] = &[
    (b"Name", b"nAME", true),
    (b"", b"", true),
    (b"Name", b"Names", false),
    (b"\xc4", b"\xe4", false),
    (b"[", b"{", false),
];

// What says that a row holds.
fn holds(is_so: bool, row: usize) -> Result<(), Fail> {
    if is_so {
        return Ok(());
    }
    Err(Fail::new(format_args!("row {row} does not hold")))
}

#[test]
fn identifiers_are_told_from_other_texts(rt: HostRuntime) -> Result<(), Fail> {
    for (row, (codes, is_ident)) in IDENTIFIERS.iter().enumerate() {
        holds(
            Ident::from_latin1(rt.alloc(), codes).is_ok() == *is_ident,
            row,
        )?;
    }
    Ok(())
}

#[test]
fn identifiers_end_below_the_specials(rt: HostRuntime) -> Result<(), Fail> {
    holds(Ident::spell(rt.alloc(), &['\u{ffef}']).is_ok(), 0)?;
    holds(Ident::spell(rt.alloc(), &['\u{fff0}']).is_err(), 1)
}

fn are_same(rt: &impl AllocGlobal, a: &[u8], b: &[u8]) -> Result<bool, Fail> {
    let first = Text::from_latin1(rt.alloc(), a)?;
    let second = Text::from_latin1(rt.alloc(), b)?;
    Ok(same_text(&first, &second))
}

#[test]
fn names_compare_without_the_case_of_ascii_letters(rt: HostRuntime) -> Result<(), Fail> {
    for (row, (a, b, same)) in NAMES.iter().enumerate() {
        holds(are_same(&rt, a, b)? == *same, row)?;
    }
    Ok(())
}

// A name of that many characters is made, or is no identifier, by each of the calls; and its text is written.
fn is_answered(rt: &impl AllocGlobal, size: usize) -> Result<bool, Fail> {
    let codes = vec![in rt.alloc(); b'a'; size]?;
    let text = Text::from_latin1(rt.alloc(), &codes)?;
    let bytes = text.to_utf8()?;
    let wanted = if 1 <= size && size <= 255 {
        None
    } else {
        Some(IdentError::NotAnIdent)
    };
    Ok(
        Ident::make(rt.alloc(), &text).err() == wanted
            && Ident::spell(rt.alloc(), text.as_slice()).err() == wanted
            && Ident::parse(rt.alloc(), &bytes).err() == wanted
            && Ident::from_latin1(rt.alloc(), &codes).err() == wanted
            && Text::from_utf8(rt.alloc(), &bytes)? == text
            && text.copy()? == text,
    )
}

#[test]
fn ample_memory_is_enough_for_each_size(rt: HostRuntime) -> Result<(), Fail> {
    for size in [0, 1, 2, 7, 63, 64, 65, 255, 256, 4096, 65_536, 2_097_152] {
        holds(is_answered(&rt, size)?, size)?;
    }
    Ok(())
}

fn prints(rt: &impl AllocGlobal, value: &impl Display, words: &str) -> Result<bool, Fail> {
    Ok(value.to_string(rt.alloc())?.as_str() == words)
}

#[test]
fn texts_and_identifiers_are_printed_as_they_are(rt: HostRuntime) -> Result<(), Fail> {
    for (row, words) in ["", "a b", "\u{e9}\u{20ac}\u{1f600}\"\\"]
        .iter()
        .enumerate()
    {
        let text = Text::from_utf8(rt.alloc(), words)?;
        holds(prints(&rt, &text, words)?, row)?;
    }
    let name = Ident::parse(rt.alloc(), "\u{e9}_9")?;
    holds(prints(&rt, &name, "\u{e9}_9")?, 3)
}

#[test]
fn errors_are_printed(rt: HostRuntime) -> Result<(), Fail> {
    holds(
        prints(
            &rt,
            &IdentError::NotAnIdent,
            "not an identifier of at most 255 characters",
        )?,
        0,
    )?;
    holds(prints(&rt, &IdentError::Memory, "out of memory")?, 1)?;
    holds(prints(&rt, &Memory, "out of memory")?, 2)
}
