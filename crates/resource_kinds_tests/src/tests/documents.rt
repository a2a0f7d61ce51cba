//! Documents of one resource, `[A]One`, written as words: `file PATH CONTENTS`, `any-file PATH`, `folder PATH`, `no-file PATH`,
//! `no-folder PATH`, `no-folder-by-force PATH`, `variable NAME VALUE`, `entries NAME VALUE`, `no-variable NAME`,
//! `no-entries NAME VALUE`, `entry MESSAGE`. A path is below the root.
use dsc_document::{Document, check};
use mof_codec::read;
use mof_values::Instance;
use std::alloc::AllocError;
use std::test::Fail;

const FILE: &str = "MSFT_FileDirectoryConfiguration{ResourceID=\"[A]One\";DestinationPath=\"/";

const VARIABLE: &str = "MSFT_EnvironmentResource{ResourceID=\"[A]One\";Name=\"";

const LOG: &str = "MSFT_LogResource{ResourceID=\"[A]One\";Message=\"";

/// A word, the declaration up to what the first word after it says, what follows that, and the property that the rest says.
type Kind = (&'static str, &'static str, &'static str, &'static str);

const KINDS: &[Kind] = &[
    ("file", FILE, "", "Contents"),
    ("any-file", FILE, "", ""),
    ("folder", FILE, "Type=\"Directory\";", ""),
    ("no-file", FILE, "Ensure=\"Absent\";", ""),
    (
        "no-folder",
        FILE,
        "Type=\"Directory\";Ensure=\"Absent\";",
        "",
    ),
    (
        "no-folder-by-force",
        FILE,
        "Type=\"Directory\";Ensure=\"Absent\";Force=TRUE;",
        "",
    ),
    ("variable", VARIABLE, "", "Value"),
    ("entries", VARIABLE, "Path=TRUE;", "Value"),
    ("no-variable", VARIABLE, "Ensure=\"Absent\";", ""),
    (
        "no-entries",
        VARIABLE,
        "Ensure=\"Absent\";Path=TRUE;",
        "Value",
    ),
    ("entry", LOG, "", ""),
];

// The property that the rest of the words says, where there is one.
fn push_property(text: &mut String, property: &str, rest: &str) -> Result<(), AllocError> {
    if property.is_empty() {
        return Ok(());
    }
    text.push_str(property)?;
    text.push_str("=\"")?;
    text.push_str(rest)?;
    text.push_str("\";")
}

// The text of a resource and of the header.
fn push_declared(text: &mut String, kind: &Kind, words: &str) -> Result<(), AllocError> {
    let (first, rest) = words.split_once(' ').unwrap_or((words, ""));
    text.push_str("instance of ")?;
    text.push_str(kind.1)?;
    text.push_str(first)?;
    text.push_str("\";")?;
    text.push_str(kind.2)?;
    push_property(text, kind.3, rest)?;
    text.push_str("};instance of OMI_ConfigurationDocument{};")
}

fn declared(rt: &impl AllocGlobal, kind: &Kind, words: &str) -> Result<String, Fail> {
    let mut text = String::new(rt.alloc());
    push_declared(&mut text, kind, words)?;
    Ok(text)
}

fn text_of(rt: &impl AllocGlobal, words: &str) -> Result<String, Fail> {
    let (word, rest) = words.split_once(' ').unwrap_or((words, ""));
    for kind in KINDS {
        if kind.0 == word {
            return declared(rt, kind, rest);
        }
    }
    Err(words.into())
}

fn instances(rt: &impl AllocGlobal, words: &str) -> Result<Vec<Instance>, Fail> {
    let text = text_of(rt, words)?;
    Ok(read(rt.alloc(), text.as_bytes())?)
}

/// The document of these words.
pub fn document(rt: &impl AllocGlobal, words: &str) -> Result<Document, Fail> {
    let instances = instances(rt, words)?;
    if instances.len() != 2 {
        return Err(words.into());
    }
    Ok(check(rt.alloc(), instances)?)
}
